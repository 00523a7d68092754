// What is judged at a call before anything is read, and the numbers of the file.
ghost use Rattle.std.specs.Prelude.{◌≡◌, ◌↔◌, true, ℕ, ◌≤◌, ◌<◌, get_or};
ghost use Rattle.clause_sizes.specs.Sizes.{Fitting};
ghost use Rattle.clause_sizes.specs.Numbers.{last_variable};
ghost use Rattle.solver_text.specs.Calls.{InRange, refusal};
ghost use Rattle.solver_text.specs.Objection.{Judged};

use crate::{Reader, Reply};
use automaton::Automaton;
use clause_sizes::{Sizes, Target, last_variable, measure};
use refusals::Refusal;

// The last variable of the file, and the last step or mark variable.
#[derive(Clone, Copy)]
pub struct Variables {
    pub last: u32,
    pub kept: u32,
}

// 4 for the state or the automaton, 8, 4 for the named acceptance; or the numbers of the file. Two numbers, and not all sizes, since
// the loop over the bytes of a piece was measured to be faster so.
pub fn judge(reader: Reader, reference: Automaton, target: Target) -> Result<Variables, Refusal>
    ensures { Judged reference target reader result }
{
    if !in_range(reader) {
        return Err(Refusal::Outside);
    }
    let measured = measure(reference, target)?;
    Ok(variables_of(measured.sizes))
}

pub fn refused(x: Refusal, reader: Reader) -> Reply
    ensures { result ≡ refusal x reader }
{
    Reply {
        answer: Err(x),
        reader,
    }
}

fn in_range(reader: Reader) -> bool
    ensures { (result ≡ true) ↔ InRange reader }
{
    reader.scan.letters <= 13 && reader.scan.value <= 2000000009 && entries_fit(&reader.named)
}

fn entries_fit(named: &[u8; Reader::SLOTS]) -> bool
    ensures { (result ≡ true) ↔ ((v : ℕ) → v < 5121 → get_or named.now v 0 ≤ 2) }
{
    named.iter().all(|entry| *entry <= 2)
}

// V once more, though `measure` has it: with that one, the compiler put `judge` into the function with the loop, which was
// then measured to take 1.6 times as long.
fn variables_of(z: Sizes) -> Variables
    requires { Fitting z }
    ensures { (result.last ≡ last_variable z) × (result.kept ≡ z.marks) }
{
    Variables {
        last: last_variable(z) as u32,
        kept: z.marks as u32,
    }
}

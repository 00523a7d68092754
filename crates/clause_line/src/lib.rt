// The clause file as text, one line a call.
#![tactic(auto)]

ghost use Rattle.clause_line.specs.Line.{LineStepped};

use automaton::Automaton;
use clause_sizes::Target;
use clause_step::{CLAUSE, Handed, step};
use clause_words::write_line;
use refusals::Refusal;

// The bytes that a clause line may want.
pub const LINE: usize = 80;

// Writes the line of the next clause of the file for the reference and the target.
pub fn line(
    reference: Automaton,
    target: Target,
    position: u64,
    text: &mut [u8],
) -> Result<Handed, Refusal>
    ensures { LineStepped reference target position text.old text.new result }
{
    let given = text.len();
    if given < LINE {
        return Err(Refusal::Short(LINE, given));
    }
    let mut clause = [0i32; CLAUSE];
    let handed = step(reference, target, position, &mut clause)?;
    let after = handed.position;
    let Some(count) = handed.written else {
        return Ok(handed);
    };
    let end = write_line(&clause[..count], text, 0);
    Ok(Handed {
        written: Some(end),
        position: after,
    })
}

// The clause file as text, as many lines as a buffer holds.
#![tactic(auto)]

ghost use Rattle.std.specs.Prelude.{◌≤◌, length};
ghost use Rattle.clause_sizes.specs.Measured.{Measured};
ghost use Rattle.clause_sizes.specs.Sizes.{target_of};
ghost use Rattle.clause_text.specs.Answers.{BatchStepped, BatchFound};

use crate::batch::fill;
use automaton::Automaton;
use automaton::states::ReferenceState;
use clause_indices::extent::extent_of;
use clause_line::LINE;
use clause_sizes::{Sizes, Target, measure};
use clause_step::{Handed, LAST};
use refusals::Refusal;

mod batch;
mod block;
mod keeping;

// Writes the lines of the next clauses, as many as fit whole.
pub fn lines(
    reference: Automaton,
    target: Target,
    position: u64,
    text: &mut [u8],
) -> Result<Handed, Refusal>
    ensures { BatchStepped reference target position text.old text.new result }
{
    let given = text.len();
    if given < LINE {
        return Err(Refusal::Short(LINE, given));
    }
    if position > LAST {
        return Err(Refusal::Outside);
    }
    let measured = measure(reference, target)?;
    Ok(many_lines(reference, measured.sizes, position, text))
}

// Where all is in order: z are the file's sizes.
fn many_lines(reference: Automaton, z: Sizes, position: u64, text: &mut [u8]) -> Handed
    requires measured { Measured reference z }
    requires in_bounds { 80 ≤ length text.old }
    ensures { BatchFound reference (target_of z) position text.old text.new result.written result.position }
{
    let destinations = reference.destinations;
    let marks = reference.marks;
    let g = extent_of(z);
    let start = ReferenceState(reference.start);
    let filled = fill(z, g, start, &destinations, &marks, position as usize, text);
    let after = filled.position as u64;
    if filled.end == 0 {
        return Handed {
            written: None,
            position: after,
        };
    }
    Handed {
        written: Some(filled.end),
        position: after,
    }
}

// The clause file, handed out clause by clause.
#![tactic(auto)]

ghost use Rattle.std.specs.Prelude.{◌≡◌, ◌≤◌, length};
ghost use Rattle.clause_sizes.specs.Measured.{Measured};
ghost use Rattle.clause_sizes.specs.Sizes.{target_of};
ghost use Rattle.clause_indices.specs.Indices.{clause_room};
ghost use Rattle.clause_step.specs.Step.{fresh_position, Stepped, StepFound, position_after};

use automaton::Automaton;
use automaton::states::ReferenceState;
use clause_indices::extent::extent_of;
use clause_list::next::next_clause;
use clause_sizes::{Sizes, Target, measure};
use refusals::Refusal;

// The literals that the longest clause has.
pub const CLAUSE: usize = clause_indices::CLAUSE;

// The position after the last clause of the largest file. A carried position lies in 0 to this one.
pub const LAST: u64 = 8657059969;

// How much is written at the start of the buffer, or None where the last clause has been handed out; and the position for the next call.
#[derive(Clone, Copy)]
pub struct Handed {
    pub written: Option<usize>,
    pub position: u64,
}

// The position before clause 1.
pub fn fresh() -> u64
    ensures { result ≡ fresh_position }
{
    0
}

// The position for the call after one from `position`: "A refused step keeps its position."
pub fn position_after(position: u64, answer: Result<Handed, Refusal>) -> u64
    ensures { result ≡ position_after position answer }
{
    match answer {
        Ok(handed) => handed.position,
        Err(_) => position,
    }
}

// Writes the next clause of the file for the reference and the target. A refusal carries no position; `position_after` has the one to go on from.
pub fn step(
    reference: Automaton,
    target: Target,
    position: u64,
    clause: &mut [i32],
) -> Result<Handed, Refusal>
    ensures { Stepped reference target position clause.old clause.new result }
{
    let given = clause.len();
    if given < CLAUSE {
        return Err(Refusal::Short(CLAUSE, given));
    }
    if position > LAST {
        return Err(Refusal::Outside);
    }
    let measured = measure(reference, target)?;
    Ok(find(reference, measured.sizes, position, clause))
}

// Where all is in order: z are the file's sizes.
fn find(reference: Automaton, z: Sizes, position: u64, clause: &mut [i32]) -> Handed
    requires measured { Measured reference z }
    requires clause_room_in_bounds { clause_room ≤ length clause.old }
    ensures { StepFound reference (target_of z) position clause.old clause.new result.written result.position }
{
    let destinations = reference.destinations;
    let marks = reference.marks;
    let g = extent_of(z);
    let start = ReferenceState(reference.start);
    let next = next_clause(
        z,
        g,
        start,
        &destinations,
        &marks,
        position as usize,
        clause,
    );
    Handed {
        written: next.length,
        position: next.position as u64,
    }
}

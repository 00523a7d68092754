// The indices of a clause; how many positions the groups have, and what groups 3 and 4 have in common.
#![tactic(auto)]

ghost use Rattle.clause_indices.specs.Indices.{EntryIfAny};

use automaton::Automaton;
use automaton::states::{CandidateState, ReferenceState};

pub mod extent;
pub mod premise;

// The indices of group 3, in its order. Group 4 has them with t = q and u the reference's step from v by l.
#[derive(Clone, Copy)]
pub struct Indices {
    pub q: CandidateState,
    pub p: CandidateState,
    pub t: CandidateState,
    pub u: ReferenceState,
    pub v: ReferenceState,
    pub l: usize,
    pub i: usize,
    pub j: usize,
    pub k: usize,
}

// The literals that the longest clause has.
pub const CLAUSE: usize = 8;

// The entry of a table for a reference state and a letter, or 0 where a table has none.
pub fn entry(table: &[u8; Automaton::CELLS], u: ReferenceState, l: usize) -> usize
    ensures { EntryIfAny table.now u.0 l result }
{
    if u.0 >= Automaton::STATES {
        return 0;
    }
    if l >= Automaton::LETTERS {
        return 0;
    }
    usize::from(table[u.0 * Automaton::LETTERS + l])
}

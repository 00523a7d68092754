// For fixed q, u and p the numbers of path(q, u, p, v, 0, 0), counted from one reference state v to the next.
ghost use Rattle.std.specs.Prelude.{◌≡◌, MatchOption, ◌≤◌, ◌<◌};
ghost use Rattle.automaton.specs.Value.{table};
ghost use Rattle.clause_sizes.specs.Sizes.{Fitting};
ghost use Rattle.clause_variables.specs.FirstRows.{Cut, FirstRowOf, Pathless, first_at};

use crate::rows::row_of;
use automaton::Automaton;
use automaton::states::{CandidateState, ReferenceState};
use bits::sets::has;
use clause_sizes::{Sizes, fitting};

// A row: its set of states, how many paths lead to each, and the first path's number.
#[derive(Clone, Copy)]
pub struct FirstRow {
    pub set: u16,
    pub width: usize,
    pub first: usize,
}

// The row of u with q and p, where a file of these sizes has paths in it.
pub fn first_row(
    z: Sizes,
    q: CandidateState,
    u: ReferenceState,
    p: CandidateState,
) -> Option<FirstRow>
    ensures { MatchOption result (Pathless z q.0 u.0 p.0) (FirstRowOf z q.0 u.0 p.0) }
{
    if !fitting(z) {
        return None;
    }
    let n = z.candidate.states;
    if !((q.0 < n) & (u.0 < z.reference.states) & (p.0 < n)) {
        return None;
    }
    row_in(z, q, u, p)
}

// For indices that were tested.
fn row_in(z: Sizes, q: CandidateState, u: ReferenceState, p: CandidateState) -> Option<FirstRow>
    requires fitting { Fitting z }
    requires q_lt_states { (q.0 < z.candidate.states) × (u.0 < z.reference.states) × (p.0 < z.candidate.states) }
    ensures { MatchOption result (Pathless z q.0 u.0 p.0) (FirstRowOf z q.0 u.0 p.0) }
{
    let row = row_of(z, u);
    let pairs = z.paths.pairs;
    if row.before + row.size > pairs {
        return None;
    }
    let n = z.candidate.states;
    let width = z.candidate.subsets * z.reference.subsets;
    let pair = n * (q.0 * pairs + row.before) + p.0 * row.size;
    Some(FirstRow {
        set: cut(row.set, z.reference.states),
        width,
        first: z.marks + (1 + pair * width),
    })
}

// The members of a set below `states`.
fn cut(set: u16, states: usize) -> u16
    ensures { Cut set states result }
{
    if states >= Automaton::STATES {
        return set;
    }
    set % (1 << states)
}

// Writes for each reference state its number, or 0 where it is not in the row.
pub fn fill(row: FirstRow, numbers: &mut [usize; Automaton::STATES])
    requires { (row.first ≤ 4199425) × (row.width ≤ 256) }
    ensures { numbers.new ≡ table 16 (first_at row) }
{
    let mut next = row.first;
    for (v, number) in numbers.iter_mut().enumerate() {
        if has(row.set, v) {
            *number = next;
            next += row.width;
        } else {
            *number = 0;
        }
    }
}

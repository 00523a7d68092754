// The numbers of the variables of a clause file, on all input.
#![tactic(auto)]

ghost use Rattle.encoding.specs.Variables.{step, mark, path};
ghost use Rattle.clause_sizes.specs.Numbers.{NumberIfAny};
ghost use Rattle.clause_variables.specs.FirstPaths.{FirstPaths};
ghost use Rattle.clause_variables.specs.Kept.{KeptIfAny};

use automaton::Automaton;
use automaton::states::{CandidateState, ReferenceState};
use bits::sets::has;
use clause_sizes::{Sizes, fitting};

mod firsts;
mod numbers;
mod rows;

// The number of step(q, l, p), or 0 where a file of these sizes has no such variable, or none has these sizes.
pub fn step_variable(z: Sizes, q: CandidateState, l: usize, p: CandidateState) -> usize
    ensures { NumberIfAny z (step q.0 l p.0) result }
{
    if !fitting(z) {
        return 0;
    }
    let n = z.candidate.states;
    if !((q.0 < n) & (l < z.letters) & (p.0 < n)) {
        return 0;
    }
    numbers::step_number(z, q, l, p)
}

// The number of mark(q, l, i, p), or 0.
pub fn mark_variable(z: Sizes, q: CandidateState, l: usize, i: usize, p: CandidateState) -> usize
    ensures { NumberIfAny z (mark q.0 l i p.0) result }
{
    if !fitting(z) {
        return 0;
    }
    let n = z.candidate.states;
    if !((q.0 < n) & (l < z.letters) & (i < z.candidate.sets) & (p.0 < n)) {
        return 0;
    }
    numbers::mark_number(z, q, l, i, p)
}

// The number of path(q, u, p, v, I, J), or 0.
pub fn path_variable(
    z: Sizes,
    q: CandidateState,
    u: ReferenceState,
    p: CandidateState,
    v: ReferenceState,
    i: usize,
    j: usize,
) -> usize
    ensures { NumberIfAny z (path q.0 u.0 p.0 v.0 i j) result }
{
    if !fitting(z) {
        return 0;
    }
    let n = z.candidate.states;
    let r = z.reference.states;
    let own = z.candidate.subsets;
    let other = z.reference.subsets;
    if !((q.0 < n) & (u.0 < r) & (p.0 < n) & (v.0 < r) & (i < own) & (j < other)) {
        return 0;
    }
    if !(kept(z, u, v) & rows::within(z, u)) {
        return 0;
    }
    numbers::path_number(z, q, u, p, v, i, j)
}

// Writes for each reference state v the number of path(q, u, p, v, 0, 0), or 0 where there is none.
pub fn first_paths(
    z: Sizes,
    q: CandidateState,
    u: ReferenceState,
    p: CandidateState,
    numbers: &mut [usize; Automaton::STATES],
)
    ensures { FirstPaths z q.0 u.0 p.0 numbers.new }
{
    match firsts::first_row(z, q, u, p) {
        Some(row) => firsts::fill(row, numbers),
        None => *numbers = [0; Automaton::STATES],
    }
}

// Whether u has path variables to v.
pub fn kept(z: Sizes, u: ReferenceState, v: ReferenceState) -> bool
    ensures { KeptIfAny z u.0 v.0 result }
{
    if u.0 >= Automaton::STATES {
        return false;
    }
    has(rows::row_set(z, u), v.0)
}

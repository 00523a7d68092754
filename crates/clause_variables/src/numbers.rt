// The numbers of the variables, for indices that were tested.
ghost use Rattle.encoding.specs.Variables.{step, mark, path};
ghost use Rattle.clause_sizes.specs.Sizes.{Fitting};
ghost use Rattle.clause_sizes.specs.Numbers.{InFile, Numbered};

use crate::rows::row_of;
use automaton::states::{CandidateState, ReferenceState};
use bits::sets::below;
use clause_sizes::Sizes;

// step(q, l, p)
pub fn step_number(z: Sizes, q: CandidateState, l: usize, p: CandidateState) -> usize
    requires fitting { Fitting z }
    requires in_file { InFile z (step q.0 l p.0) }
    ensures { Numbered z (step q.0 l p.0) result }
{
    1 + (q.0 * z.letters + l) * z.candidate.states + p.0
}

// mark(q, l, i, p)
pub fn mark_number(z: Sizes, q: CandidateState, l: usize, i: usize, p: CandidateState) -> usize
    requires fitting { Fitting z }
    requires in_file { InFile z (mark q.0 l i p.0) }
    ensures { Numbered z (mark q.0 l i p.0) result }
{
    z.steps + (1 + (((q.0 * z.letters + l) * z.candidate.sets + i) * z.candidate.states + p.0))
}

// path(q, u, p, v, I, J)
pub fn path_number(
    z: Sizes,
    q: CandidateState,
    u: ReferenceState,
    p: CandidateState,
    v: ReferenceState,
    i: usize,
    j: usize,
) -> usize
    requires fitting { Fitting z }
    requires in_file { InFile z (path q.0 u.0 p.0 v.0 i j) }
    ensures { Numbered z (path q.0 u.0 p.0 v.0 i j) result }
{
    let n = z.candidate.states;
    let row = row_of(z, u);
    let pair = n * (q.0 * z.paths.pairs + row.before) + p.0 * row.size + below(row.set, v.0);
    let place = (pair * z.candidate.subsets + i) * z.reference.subsets + j;
    z.marks + (1 + place)
}

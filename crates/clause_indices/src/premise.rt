// What groups 3 and 4 have in common.
ghost use Rattle.std.specs.Prelude.{◌≡◌, ◌↔◌, true, ◌≤◌, ◌<◌, length};
ghost use Rattle.encoding.specs.Variables.{mark};
ghost use Rattle.decimal.specs.Wrote.{Wrote};
ghost use Rattle.clause_sizes.specs.Sizes.{Fitting};
ghost use Rattle.clause_sizes.specs.Numbers.{InFile, Numbered};
ghost use Rattle.clause_indices.specs.Indices.{Within, PremiseIfAny, path_at, mark_literal, marks_of, premise_of, clause_room};

use crate::{CLAUSE, Indices};
use automaton::states::CandidateState;
use clause_literals::{negative, positive};
use clause_sizes::{Sizes, fitting};
use clause_variables::{mark_variable, path_variable, step_variable};

// -path(q, u, p, v, I, J), -step(p, l, t), and the marks of p, l, t against K. All of group 4's clause, where t = q and u is the
// reference's step from v by l. Nothing where no file of these sizes has the indices or the path, or where there is no room.
pub fn premise(z: Sizes, x: Indices, out: &mut [i32]) -> usize
    ensures { PremiseIfAny z x out.old out.new result }
{
    if out.len() < CLAUSE {
        return 0;
    }
    if !fitting(z) {
        return 0;
    }
    if !within(z, x) {
        return 0;
    }
    let path = path_variable(z, x.q, x.u, x.p, x.v, x.i, x.j);
    if path == 0 {
        return 0;
    }
    literals(z, x, path, out)
}

// Whether the indices are in their ranges.
fn within(z: Sizes, x: Indices) -> bool
    requires { Fitting z }
    ensures { (result ≡ true) ↔ Within z x }
{
    let n = z.candidate.states;
    let r = z.reference.states;
    let own = z.candidate.subsets;
    let other = z.reference.subsets;
    (x.q.0 < n)
        & (x.p.0 < n)
        & (x.t.0 < n)
        & (x.u.0 < r)
        & (x.v.0 < r)
        & (x.l < z.letters)
        & (x.i < own)
        & (x.j < other)
        & (x.k < own)
}

// `path` is the number of path(q, u, p, v, I, J).
fn literals(z: Sizes, x: Indices, path: usize, out: &mut [i32]) -> usize
    requires fitting { Fitting z }
    requires within { Within z x × Numbered z (path_at x) path }
    requires clause_room_in_bounds { clause_room ≤ length out.old }
    ensures { Wrote out.old 0 (premise_of z x) out.new result }
{
    out[0] = negative(path);
    out[1] = negative(step_variable(z, x.p, x.l, x.t));
    marks(z, x.p, x.l, x.t, x.k, out)
}

// The marks of p, l, t against K, after two literals.
fn marks(
    z: Sizes,
    p: CandidateState,
    l: usize,
    t: CandidateState,
    k: usize,
    out: &mut [i32],
) -> usize
    requires fitting { Fitting z }
    requires p_lt_states { (p.0 < z.candidate.states) × (l < z.letters) × (t.0 < z.candidate.states) × (clause_room ≤ length out.old) }
    ensures { Wrote out.old 2 (marks_of z p.0 l t.0 k z.candidate.sets) out.new result }
{
    let sets = z.candidate.sets;
    for i in 0..sets {
        out[2 + i] = mark_literal(z, p, l, i, t, k);
    }
    2 + sets
}

// "mark(p,l,i,t), negative if i is in K"
fn mark_literal(z: Sizes, p: CandidateState, l: usize, i: usize, t: CandidateState, k: usize) -> i32
    requires fitting { Fitting z }
    requires in_file { InFile z (mark p.0 l i t.0) }
    ensures { result ≡ mark_literal z p.0 l t.0 k i }
{
    let variable = mark_variable(z, p, l, i, t);
    if (k >> i) % 2 == 1 {
        return negative(variable);
    }
    positive(variable)
}

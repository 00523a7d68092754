// Groups 1, 2 and 3: one clause of each, written to the start of a buffer.
ghost use Rattle.std.specs.Prelude.{◌≤◌, ◌<◌, length};
ghost use Rattle.decimal.specs.Wrote.{Wrote};
ghost use Rattle.clause_sizes.specs.Sizes.{Fitting};
ghost use Rattle.encoding.specs.Variables.{path};
ghost use Rattle.clause_sizes.specs.Numbers.{InFile};
ghost use Rattle.clause_indices.specs.Indices.{Within, path_at, clause_room};
ghost use Rattle.clause_list.specs.Groups.{Successive, totality_of, initial_of, successor_of, last_path, extension_of};

use automaton::states::{CandidateState, ReferenceState};
use clause_indices::Indices;
use clause_indices::premise::premise;
use clause_literals::{negative, positive};
use clause_sizes::Sizes;
use clause_variables::{path_variable, step_variable};

// Group 1: the steps from q by l.
pub fn totality(z: Sizes, q: CandidateState, l: usize, out: &mut [i32]) -> usize
    requires fitting { Fitting z }
    requires q_lt_states { (q.0 < z.candidate.states) × (l < z.letters) × (clause_room ≤ length out.old) }
    ensures { Wrote out.old 0 (totality_of z q.0 l z.candidate.states) out.new result }
{
    let n = z.candidate.states;
    for p in 0..n {
        out[p] = positive(step_variable(z, q, l, CandidateState(p)));
    }
    n
}

// Group 2, its first clause.
pub fn initial(z: Sizes, start: ReferenceState, out: &mut [i32]) -> usize
    requires fitting { Fitting z }
    requires in_file { InFile z (path 0 start.0 0 start.0 0 0) × (clause_room ≤ length out.old) }
    ensures { Wrote out.old 0 (initial_of z start.0) out.new result }
{
    out[0] = positive(path_variable(z, CandidateState(0), start, CandidateState(0), start, 0, 0));
    1
}

// Group 2, the others; w is the reference's step from u by l.
pub fn successor(
    z: Sizes,
    q: CandidateState,
    p: CandidateState,
    u: ReferenceState,
    l: usize,
    w: ReferenceState,
    out: &mut [i32],
) -> usize
    requires fitting { Fitting z }
    requires successive { Successive z q.0 p.0 u.0 l w.0 }
    requires in_file { InFile z (path q.0 u.0 q.0 u.0 0 0) × InFile z (path p.0 w.0 p.0 w.0 0 0) × (clause_room ≤ length out.old) }
    ensures { Wrote out.old 0 (successor_of z q.0 p.0 u.0 l w.0) out.new result }
{
    out[0] = negative(path_variable(z, q, u, q, u, 0, 0));
    out[1] = negative(step_variable(z, q, l, p));
    out[2] = positive(path_variable(z, p, w, p, w, 0, 0));
    3
}

// Group 3; w is the reference's step from v by l, and f its marks.
pub fn extension(z: Sizes, x: Indices, w: ReferenceState, f: usize, out: &mut [i32]) -> usize
    requires fitting { Fitting z }
    requires within { Within z x × InFile z (path_at x) × InFile z (last_path x w.0 f) }
    requires clause_room_in_bounds { clause_room ≤ length out.old }
    ensures { Wrote out.old 0 (extension_of z x w.0 f) out.new result }
{
    let at = premise(z, x, out);
    out[at] = positive(path_variable(z, x.q, x.u, x.t, w, x.i | x.k, x.j | f));
    at + 1
}

// The clause at a position, where there is one.
ghost use Rattle.std.specs.Prelude.{◌≡◌, ◌≤◌, ◌<◌, length};
ghost use Rattle.encoding.specs.Positions.{at_position};
ghost use Rattle.clause_sizes.specs.Sizes.{Fitting};
ghost use Rattle.clause_sizes.specs.Numbers.{number_of};
ghost use Rattle.clause_list.specs.Tables.{StepsWithin, NodePaths, task_of, Tables};
ghost use Rattle.clause_indices.specs.Indices.{extensions, closures, successors, ExtentOf, clause_room};
ghost use Rattle.clause_list.specs.Digits.{closure_indices};
ghost use Rattle.decimal.specs.Wrote.{Wrote};
ghost use Rattle.clause_list.specs.Position.{Stands, successor_at, extensions_at, closure_at, disagree};

use crate::digits::{indices_of, marking_at, transition_at};
use crate::groups::{extension, initial, successor, totality};
use automaton::Automaton;
use automaton::states::{CandidateState, ReferenceState};
use bits::sets::has;
use clause_indices::extent::Extent;
use clause_indices::premise::premise;
use clause_indices::{Indices, entry};
use clause_sizes::Sizes;
use clause_variables::kept;

// Writes the clause at position x, where there is one, and returns how many literals it has; else writes nothing.
pub fn clause_at(
    z: Sizes,
    g: Extent,
    start: ReferenceState,
    destinations: &[u8; Automaton::CELLS],
    marks: &[u8; Automaton::CELLS],
    x: usize,
    out: &mut [i32],
) -> Option<usize>
    requires tables { Tables z destinations.now marks.now × (start.0 < z.reference.states) }
    requires extent_of { ExtentOf z g × (x < g.all) × (clause_room ≤ length out.old) }
    ensures { Stands out.old (at_position (task_of z start.0 destinations.now marks.now) (number_of z) x) out.new result }
{
    if x < g.first {
        return Some(totality(z, CandidateState(x / z.letters), x % z.letters, out));
    }
    let y = x - g.first;
    if y < g.second {
        if y < 1 {
            return Some(initial(z, start, out));
        }
        return Some(successor_at(z, destinations, y - 1, out));
    }
    let t = y - g.second;
    if t < g.third {
        return extension_at(z, destinations, marks, t, out);
    }
    closure_at(z, destinations, marks, t - g.third, out)
}

// Group 2 after its first clause.
fn successor_at(z: Sizes, destinations: &[u8; Automaton::CELLS], x: usize, out: &mut [i32]) -> usize
    requires fitting { Fitting z × StepsWithin z destinations.now × NodePaths z }
    requires x_bound { (x < successors z) × (clause_room ≤ length out.old) }
    ensures { Wrote out.old 0 (successor_at z destinations.now x) out.new result }
{
    let a = transition_at(z, x);
    let u = a.v;
    let q = CandidateState(a.rest / z.candidate.states);
    let p = CandidateState(a.rest % z.candidate.states);
    let w = entry(destinations, u, a.l);
    successor(z, q, p, u, a.l, ReferenceState(w), out)
}

// Group 3.
fn extension_at(
    z: Sizes,
    destinations: &[u8; Automaton::CELLS],
    marks: &[u8; Automaton::CELLS],
    x: usize,
    out: &mut [i32],
) -> Option<usize>
    requires tables { Tables z destinations.now marks.now }
    requires x_bound { (x < extensions z) × (clause_room ≤ length out.old) }
    ensures { Stands out.old (extensions_at z destinations.now marks.now x) out.new result }
{
    let indices = indices_of(z, x);
    let u = indices.u;
    let v = indices.v;
    let w = ReferenceState(entry(destinations, v, indices.l));
    if !(kept(z, u, v) & kept(z, u, w)) {
        return None;
    }
    let f = entry(marks, v, indices.l);
    Some(extension(z, indices, w, f, out))
}

// Group 4.
fn closure_at(
    z: Sizes,
    destinations: &[u8; Automaton::CELLS],
    marks: &[u8; Automaton::CELLS],
    x: usize,
    out: &mut [i32],
) -> Option<usize>
    requires tables { Tables z destinations.now marks.now }
    requires x_bound { (x < closures z) × (clause_room ≤ length out.old) }
    ensures { Stands out.old (closure_at z destinations.now marks.now x) out.new result }
{
    let indices = closure_indices(z, destinations, x);
    let w = indices.u;
    let v = indices.v;
    let f = entry(marks, v, indices.l);
    if !(kept(z, w, v) & disagree(z, indices.i | indices.k, indices.j | f)) {
        return None;
    }
    Some(premise(z, indices, out))
}

// Of position x of group 4.
fn closure_indices(z: Sizes, destinations: &[u8; Automaton::CELLS], x: usize) -> Indices
    requires { Fitting z × (x < closures z) }
    ensures { result ≡ closure_indices z destinations.now x }
{
    let n = z.candidate.states;
    let s = marking_at(z, x);
    let a = transition_at(z, s.rest);
    let v = a.v;
    let w = entry(destinations, v, a.l);
    Indices {
        q: CandidateState(a.rest / n),
        p: CandidateState(a.rest % n),
        t: CandidateState(a.rest / n),
        u: ReferenceState(w),
        v,
        l: a.l,
        i: s.i,
        j: s.j,
        k: s.k,
    }
}

// Whether the two acceptances disagree on a set of candidate marks and one of reference marks.
fn disagree(z: Sizes, candidate: usize, reference: usize) -> bool
    ensures { result ≡ disagree z candidate reference }
{
    has(z.candidate.acceptance, candidate) ^ has(z.reference.acceptance, reference)
}

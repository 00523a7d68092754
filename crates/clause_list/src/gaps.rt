// Positions at which no clause stands, passed over as a whole: the clauses of groups 3 and 4 that name paths which the list does not have.
ghost use Rattle.std.specs.Prelude.{◌≤◌, ◌<◌};
ghost use Rattle.clause_sizes.specs.Sizes.{Fitting};
ghost use Rattle.clause_indices.specs.Indices.{extensions, ExtentOf};
ghost use Rattle.clause_list.specs.Tables.{StepsWithin};
ghost use Rattle.clause_list.specs.Gaps.{AbsentBetween, Stretch, ThirdStretch, FourthStretch};

use crate::digits::{indices_of, marking_at, transition_at};
use automaton::Automaton;
use automaton::states::ReferenceState;
use clause_indices::entry;
use clause_indices::extent::Extent;
use clause_sizes::Sizes;
use clause_variables::kept;

// The position to go on from, where no clause stands at x.
pub fn after(z: Sizes, g: Extent, destinations: &[u8; Automaton::CELLS], x: usize) -> usize
    requires { Fitting z × StepsWithin z destinations.now × ExtentOf z g × (x < g.all) }
    ensures { (x < result) × (result ≤ g.all) × AbsentBetween z g destinations.now x result }
{
    let before = g.first + g.second;
    if x < before {
        return x + 1;
    }
    let y = x - before;
    if y < g.third {
        return before + past(y, third_stretch(z, destinations, y));
    }
    let t = y - g.third;
    before + (g.third + past(t, fourth_stretch(z, destinations, t)))
}

// The first multiple of the width past x.
fn past(x: usize, width: usize) -> usize
    requires { (0 < width) × (width ≤ 1048576) × (x < 8657059969) }
    ensures { Stretch x width result }
{
    (x / width + 1) * width
}

// How many positions of group 3 have no clause for the same reason as position x: all that share u and v where u has no paths to v, else all that share u, v and l where it has none
// to the step from v by l.
fn third_stretch(z: Sizes, destinations: &[u8; Automaton::CELLS], x: usize) -> usize
    requires { Fitting z × (x < extensions z) }
    ensures { ThirdStretch z destinations.now x result }
{
    let indices = indices_of(z, x);
    let u = indices.u;
    let v = indices.v;
    let own = z.candidate.subsets;
    let markings = own * z.reference.subsets * own;
    if !kept(z, u, v) {
        return markings * z.letters;
    }
    let w = ReferenceState(entry(destinations, v, indices.l));
    if !kept(z, u, w) {
        return markings;
    }
    1
}

// And of group 4: all that share v and l where the step from v by l has no paths to v.
fn fourth_stretch(z: Sizes, destinations: &[u8; Automaton::CELLS], x: usize) -> usize
    requires { Fitting z × StepsWithin z destinations.now }
    ensures { FourthStretch z destinations.now x result }
{
    let s = marking_at(z, x);
    let a = transition_at(z, s.rest);
    let v = a.v;
    let w = ReferenceState(entry(destinations, v, a.l));
    if !kept(z, w, v) {
        let own = z.candidate.subsets;
        return own * z.reference.subsets * own;
    }
    1
}

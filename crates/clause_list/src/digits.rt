// A position taken apart digit by digit, the last fastest.
ghost use Rattle.std.specs.Prelude.{◌≡◌, ◌<◌};
ghost use Rattle.clause_sizes.specs.Sizes.{Fitting};
ghost use Rattle.clause_indices.specs.Indices.{Within, extensions, extension_indices};
ghost use Rattle.clause_list.specs.Digits.{MarkingOf, TransitionOf};

use automaton::states::{CandidateState, ReferenceState};
use clause_indices::Indices;
use clause_sizes::Sizes;

// The three sets of marks of a position, and what is left of it.
#[derive(Clone, Copy)]
pub struct Marking {
    pub i: usize,
    pub j: usize,
    pub k: usize,
    pub rest: usize,
}

pub fn marking_at(z: Sizes, x: usize) -> Marking
    requires { Fitting z }
    ensures { MarkingOf z x result }
{
    let own = z.candidate.subsets;
    let other = z.reference.subsets;
    let y = x / own;
    Marking {
        i: y / other % own,
        j: y % other,
        k: x % own,
        rest: y / other / own,
    }
}

// The reference's transition of a position, and what is left of it.
#[derive(Clone, Copy)]
pub struct Transition {
    pub v: ReferenceState,
    pub l: usize,
    pub rest: usize,
}

pub fn transition_at(z: Sizes, x: usize) -> Transition
    requires { Fitting z }
    ensures { TransitionOf z x result }
{
    let y = x / z.letters;
    Transition {
        v: ReferenceState(y % z.reference.states),
        l: x % z.letters,
        rest: y / z.reference.states,
    }
}

// The indices of position x of group 3.
pub fn indices_of(z: Sizes, x: usize) -> Indices
    requires { Fitting z × (x < extensions z) }
    ensures { (result ≡ extension_indices z x) × Within z result }
{
    let n = z.candidate.states;
    let s = marking_at(z, x);
    let a = transition_at(z, s.rest);
    let v = a.v;
    let y = a.rest / z.reference.states;
    Indices {
        q: CandidateState(y / n / n),
        p: CandidateState(y / n % n),
        t: CandidateState(y % n),
        u: ReferenceState(a.rest % z.reference.states),
        v,
        l: a.l,
        i: s.i,
        j: s.j,
        k: s.k,
    }
}

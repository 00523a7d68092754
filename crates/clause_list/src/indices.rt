// The indices of a position of group 3, on all input.
ghost use Rattle.std.specs.Prelude.{◌≡◌};
ghost use Rattle.clause_indices.specs.Indices.{IndicesIfAny, nowhere};

use crate::digits::indices_of;
use automaton::states::{CandidateState, ReferenceState};
use clause_indices::Indices;
use clause_indices::extent::extent_of;
use clause_sizes::{Sizes, fitting};

// Of position x of group 3; all 0 where no file of these sizes has that position.
pub fn extension_indices(z: Sizes, x: usize) -> Indices
    ensures { IndicesIfAny z x result }
{
    if !fitting(z) {
        return nowhere();
    }
    let g = extent_of(z);
    if x >= g.third {
        return nowhere();
    }
    indices_of(z, x)
}

fn nowhere() -> Indices
    ensures { result ≡ nowhere }
{
    Indices {
        q: CandidateState(0),
        p: CandidateState(0),
        t: CandidateState(0),
        u: ReferenceState(0),
        v: ReferenceState(0),
        l: 0,
        i: 0,
        j: 0,
        k: 0,
    }
}

// The order of the positions of group 3 by blocks: over a block q, p, t and u stay.
#![tactic(auto)]

ghost use Rattle.std.specs.Prelude.{◌≡◌};
ghost use Rattle.clause_order.specs.Follows.{Follows};
ghost use Rattle.clause_order.specs.Stretches.{next_state};

use automaton::states::ReferenceState;
use clause_indices::Indices;
use clause_sizes::Sizes;

pub mod passing;

// The indices of the position after x's. At the end of the block the new v is no state. Sums wrap, so that no index is too large.
pub fn following(z: Sizes, x: Indices) -> Indices
    ensures { Follows z x result }
{
    let k = x.k.wrapping_add(1);
    if k < z.candidate.subsets {
        return Indices { k, ..x };
    }
    let j = x.j.wrapping_add(1);
    if j < z.reference.subsets {
        return Indices { j, k: 0, ..x };
    }
    let i = x.i.wrapping_add(1);
    if i < z.candidate.subsets {
        return Indices { i, j: 0, k: 0, ..x };
    }
    let l = x.l.wrapping_add(1);
    if l < z.letters {
        return Indices {
            l,
            i: 0,
            j: 0,
            k: 0,
            ..x
        };
    }
    next_state(x)
}

// The next v, from its first letter and sets on.
fn next_state(x: Indices) -> Indices
    ensures { result ≡ next_state x }
{
    Indices {
        v: ReferenceState(x.v.0.wrapping_add(1)),
        l: 0,
        i: 0,
        j: 0,
        k: 0,
        ..x
    }
}

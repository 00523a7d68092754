// Past the positions of group 3 that share a letter, or a state. Where a list has no paths between two reference states, no clause stands at them.
ghost use Rattle.clause_order.specs.Passes.{Passes, transition_width, state_width};
ghost use Rattle.clause_order.specs.Stretches.{PastOf};

use crate::next_state;
use automaton::Automaton;
use clause_indices::Indices;
use clause_sizes::Sizes;

// The sets of marks that there are at most.
const MARKINGS: usize = 1 << Automaton::SETS;

// A position by its indices and by its number.
#[derive(Clone, Copy)]
pub struct Place {
    pub indices: Indices,
    pub position: usize,
}

// Past all that share u, v and l with x, which is at the position.
pub fn past_letter(z: Sizes, x: Indices, position: usize) -> Place
    ensures { Passes z (transition_width z) x position result }
{
    let first = (x.i == 0) & (x.j == 0) & (x.k == 0);
    let after = past(z, 1, first, position);
    let l = x.l.wrapping_add(1);
    if l < z.letters {
        return Place {
            indices: Indices {
                l,
                i: 0,
                j: 0,
                k: 0,
                ..x
            },
            position: after,
        };
    }
    Place {
        indices: next_state(x),
        position: after,
    }
}

// Past all that share u and v with x.
pub fn past_state(z: Sizes, x: Indices, position: usize) -> Place
    ensures { Passes z (state_width z) x position result }
{
    let first = (x.l == 0) & (x.i == 0) & (x.j == 0) & (x.k == 0);
    Place {
        indices: next_state(x),
        position: past(z, z.letters, first, position),
    }
}

// The first multiple past the position of as many positions as so many letters have; the position where that many have none, or a size is past its limit. `first`: the position is such a multiple itself.
fn past(z: Sizes, letters: usize, first: bool, position: usize) -> usize
    ensures { PastOf z letters first position result }
{
    let own = z.candidate.subsets;
    let other = z.reference.subsets;
    if (own > MARKINGS) | (other > MARKINGS) | (letters > Automaton::LETTERS) {
        return position;
    }
    let width = own * other * own * letters;
    if width == 0 {
        return position;
    }
    if first {
        return position.wrapping_add(width);
    }
    (position - position % width).wrapping_add(width)
}

// The word that leads to a place, read back from edge to edge.
ghost use Rattle.std.specs.Prelude.{◌≡◌, ◌++◌, ◌≤◌, length, drop};
ghost use Rattle.compare_shortest.specs.SearchWords.{back};
ghost use Rattle.compare_shortest.specs.ReadBack.{Chain};
ghost use Rattle.compare_shortest.specs.Packing.{view};

use crate::places;
use automaton::Automaton;

// The last `depth` letters of the way to the place, into the front of `out`.
pub fn write_word(places: &[u64], place: usize, depth: usize, out: &mut [u8])
    requires { Chain (view places.now).edge (length places.now) depth place × (depth ≤ length out.old) }
    ensures { out.new ≡ back (view places.now).edge depth place ++ drop depth out.old }
{
    let mut k = place;
    for left in (0..depth).rev() {
        let edge = places::edge(places[k]);
        out[left] = (edge % Automaton::LETTERS) as u8;
        k = edge / Automaton::LETTERS;
    }
}

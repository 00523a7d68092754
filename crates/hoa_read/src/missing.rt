// States and edges that are missing at the end.
ghost use Rattle.std.specs.Prelude.{◌≤◌};
ghost use Rattle.hoa_read.specs.Missing.{GapAnswer};

use automaton::Automaton;
use bits::sets::lowest;
use hoa_formulas::ALL;

// A state, and a letter for which it has no edge.
#[derive(Clone, Copy)]
pub struct Gap {
    pub state: usize,
    pub letter: usize,
}

// The lowest state, and its lowest letter, without an edge; `given` has for each state the letters with an edge.
pub fn first_gap(given: &[u16; Automaton::STATES], states: usize, letters: usize) -> Option<Gap>
    requires { (states ≤ 16) × (letters ≤ 16) }
    ensures { GapAnswer given.now states letters result }
{
    for state in 0..states {
        let letter = lowest(given[state] ^ ALL, letters);
        if letter < letters {
            return Some(Gap { state, letter });
        }
    }
    None
}

// The test of a table with an entry for each state and letter.
ghost use Rattle.std.specs.Prelude.{◌≡◌};
ghost use Rattle.automaton.specs.Tests.{entry_fits, filled};

use crate::Automaton;

// Whether the entries of the first `states` states and `letters` letters are below `bound`, and all others 0.
pub fn filled(table: &[u8; Automaton::CELLS], states: usize, letters: usize, bound: usize) -> bool
    ensures { result ≡ filled states letters bound table.now }
{
    table
        .iter()
        .enumerate()
        .all(|(i, entry)| entry_fits(i, *entry, states, letters, bound))
}

fn entry_fits(i: usize, entry: u8, states: usize, letters: usize, bound: usize) -> bool
    ensures { result ≡ entry_fits states letters bound i entry }
{
    if i / Automaton::LETTERS < states && i % Automaton::LETTERS < letters {
        (entry as usize) < bound
    } else {
        entry == 0
    }
}

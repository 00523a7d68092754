// The product of two automata, as tables for a search: the number of a pair of states is `STATES` times the first and the second.
ghost use Rattle.std.specs.Prelude.{◌≡◌, ◌<◌, length};
ghost use Rattle.compare_tables.specs.Tables.{Below};
ghost use Rattle.compare_shortest.specs.Sizes.{hit_count, step_count};
ghost use Rattle.compare_shortest.specs.ProductTables.{pair_at, Tables};

use crate::{MARKED, STEPS};
use automaton::Automaton;

const STATES: u16 = Automaton::STATES as u16;

// The steps of the product, without marks into `plain`, and with them into `table`.
pub fn fill(
    next_a: &[u8; Automaton::CELLS],
    marks_a: &[u8; Automaton::CELLS],
    next_b: &[u8; Automaton::CELLS],
    marks_b: &[u8; Automaton::CELLS],
    plain: &mut [u16],
    table: &mut [u16],
)
    requires below { Below 16 next_a.now × Below 16 marks_a.now × Below 16 next_b.now × Below 16 marks_b.now }
    requires plain_len { (length plain.old ≡ step_count) × (length table.old ≡ step_count) }
    ensures { Tables next_a.now marks_a.now next_b.now marks_b.now plain.new table.new step_count }
{
    for i in 0..STEPS {
        let next = pair(next_a, next_b, i);
        let marks = pair(marks_a, marks_b, i);
        plain[i] = next * MARKED;
        table[i] = next * MARKED + marks;
    }
}

// The entries of two tables for i, which is `LETTERS` times a pair of states, and a letter. There are as many sets of marks as states, so
// that entries of both kinds make a pair alike.
pub fn pair(first: &[u8; Automaton::CELLS], second: &[u8; Automaton::CELLS], i: usize) -> u16
    requires { (i < step_count) × Below 16 first.now × Below 16 second.now }
    ensures { (result ≡ pair_at first.now second.now i) × (result < hit_count) }
{
    let letter = i % Automaton::LETTERS;
    let a = first[i / Automaton::CELLS * Automaton::LETTERS + letter] as u16;
    let b = second[i / Automaton::LETTERS % Automaton::STATES * Automaton::LETTERS + letter] as u16;
    a * STATES + b
}

// What each state reaches: row u is a set of states that u reaches.
ghost use Rattle.std.specs.Prelude.{◌≡◌, ◌≤◌, ◌<◌, length};
ghost use Rattle.automaton.specs.Value.{Valid};
ghost use Rattle.automaton.specs.View.{view};
ghost use Rattle.reach.specs.Closing.{Joined, Reached, Through, Closed};

use automaton::Automaton;
use bits::powers::power_of_two;
use bits::sets::{has, single};

// Adds to each state's row where its transitions lead.
pub fn add_steps(rows: &mut [u16; Automaton::STATES], a: Automaton)
    requires { Valid a × Reached (view a) 0 0 rows.old }
    ensures { Reached (view a) 256 0 rows.new }
{
    let letters = power_of_two(a.propositions);
    for (i, destination) in a.destinations.iter().enumerate() {
        let u = i / Automaton::LETTERS;
        let to = single(*destination as usize);
        rows[u] = joined(rows[u], to, i % Automaton::LETTERS < letters);
    }
}

// Warshall's closure: after turn k, the rows have what is reached by way of the states up to k.
pub fn close(rows: &mut [u16; Automaton::STATES], states: usize)
    requires { (states ≤ 16) × (length rows.old ≡ 16) }
    ensures { Closed states rows.old states rows.new }
{
    for k in 0..states {
        through(rows, k);
    }
}

// Adds row k to each row that has k.
fn through(rows: &mut [u16; Automaton::STATES], k: usize)
    requires { (k < 16) × (length rows.old ≡ 16) }
    ensures { Through k rows.old 16 rows.new }
{
    let more = rows[k];
    for row in rows.iter_mut() {
        *row = joined(*row, more, has(*row, k));
    }
}

// The set, with the members of `more` where the test passes.
pub fn joined(set: u16, more: u16, test: bool) -> u16
    ensures { Joined set more test result }
{
    if test { set | more } else { set }
}

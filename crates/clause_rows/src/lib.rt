// Between which reference states a clause file has path variables, as rows: row u is the set of the states that u has paths to.
#![tactic(auto)]

ghost use Rattle.std.specs.Prelude.{◌≡◌};
ghost use Rattle.clause_rows.specs.Rows.{everywhere, full_row, full_set, rows_of};

use automaton::Automaton;
use bits::sets::below;

// The rows, how many states the rows before each hold, and how many all of them hold.
#[derive(Clone, Copy)]
pub struct Rows {
    pub sets: [u16; Automaton::STATES],
    pub before: [u8; Automaton::STATES],
    pub pairs: usize,
}

// The rows where each of so many states has paths to all of them.
pub fn everywhere(states: usize) -> [u16; Automaton::STATES]
    ensures { result ≡ everywhere states }
{
    let mut sets = [0u16; Automaton::STATES];
    for (u, set) in sets.iter_mut().enumerate() {
        *set = full_row(states, u);
    }
    sets
}

fn full_row(states: usize, u: usize) -> u16
    ensures { result ≡ full_row states u }
{
    if u < states { full_set(states) } else { 0 }
}

// All of so many states, of which there are at most 16.
fn full_set(states: usize) -> u16
    ensures { result ≡ full_set states }
{
    if states < Automaton::STATES {
        (1 << states) - 1
    } else {
        u16::MAX
    }
}

// With these sets, and what they hold.
pub fn rows_with(sets: [u16; Automaton::STATES]) -> Rows
    ensures { result ≡ rows_of sets }
{
    let mut before = [0u8; Automaton::STATES];
    let mut pairs = 0;
    for (u, set) in sets.iter().enumerate() {
        before[u] = pairs as u8;
        pairs += below(*set, Automaton::STATES);
    }
    Rows {
        sets,
        before,
        pairs,
    }
}

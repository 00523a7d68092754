// The automaton as a value, its limits, and the test that a value lies in "The automaton".
#![tactic(auto)]

ghost use Rattle.std.specs.Prelude.{◌≡◌, ◌↔◌, true};
ghost use Rattle.automaton.specs.Tests.{counts_fit, fits, tables_fit};
ghost use Rattle.automaton.specs.Value.{Valid, empty};

use acceptance::own_sets;
use bits::powers::power_of_two;

pub mod names;
mod naming;
pub mod states;
mod tables;

// Transitions stand at `state * LETTERS + letter`, the bytes of name i from `i * NAME` on. A set of marks is a number:
// bit i for the set i. The acceptance is a mask: bit M says whether a run that meets just the sets of M infinitely often is
// accepting. Slots that are not in use are 0, so that equal automata are equal values.
#[derive(Clone, Copy)]
pub struct Automaton {
    pub states: usize,
    pub start: usize,
    pub propositions: usize,
    pub sets: usize,
    pub acceptance: u16,
    pub lengths: [u8; Automaton::PROPOSITIONS],
    pub names: [u8; Automaton::NAMES],
    pub destinations: [u8; Automaton::CELLS],
    pub marks: [u8; Automaton::CELLS],
}

// The bounds of document 01, named here and nowhere else.
impl Automaton {
    pub const STATES: usize = 16;

    pub const CANDIDATE_STATES: usize = 8;

    pub const LETTERS: usize = 16;

    pub const SETS: usize = 4;

    pub const PROPOSITIONS: usize = 4;

    pub const NAME: usize = 16;

    pub const CELLS: usize = Automaton::STATES * Automaton::LETTERS;

    pub const NAMES: usize = Automaton::PROPOSITIONS * Automaton::NAME;

    // No states, no propositions, no sets: where a table is filled from.
    pub fn empty() -> Automaton
        ensures { result ≡ empty }
    {
        Automaton {
            states: 0,
            start: 0,
            propositions: 0,
            sets: 0,
            acceptance: 0,
            lengths: [0u8; Automaton::PROPOSITIONS],
            names: [0u8; Automaton::NAMES],
            destinations: [0u8; Automaton::CELLS],
            marks: [0u8; Automaton::CELLS],
        }
    }

    // Whether the value lies in "The automaton".
    pub fn valid(self) -> bool
        ensures { (result ≡ true) ↔ Valid self }
    {
        fits(self)
    }
}

// Counts first, since the tables are read by them.
#[tactic(auto, unfolding(crate::specs::Tests::fits))]
fn fits(a: Automaton) -> bool
    ensures { result ≡ fits a }
{
    counts_fit(a.states, a.start, a.propositions, a.sets)
        && own_sets(a.acceptance, a.sets)
        && tables_fit(a)
        && naming::named(a.names, a.lengths, a.propositions)
}

// The start is a state, so there is one.
fn counts_fit(states: usize, start: usize, propositions: usize, sets: usize) -> bool
    ensures { result ≡ counts_fit states start propositions sets }
{
    states <= Automaton::STATES
        && start < states
        && propositions <= Automaton::PROPOSITIONS
        && sets <= Automaton::SETS
}

// Destinations are states, and marks are sets that there are.
fn tables_fit(a: Automaton) -> bool
    ensures { result ≡ tables_fit a }
{
    let letters = power_of_two(a.propositions);
    tables::filled(&a.destinations, a.states, letters, a.states)
        && tables::filled(&a.marks, a.states, letters, power_of_two(a.sets))
}

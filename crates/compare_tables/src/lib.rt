// The test that two tables and a start are those of an automaton within the bounds.
#![tactic(auto)]

ghost use Rattle.std.specs.Prelude.{◌≡◌, ◌↔◌, true};
ghost use Rattle.compare_tables.specs.Tables.{Below, InRange};

use automaton::Automaton;

const STATES: u8 = Automaton::STATES as u8;

// Sets of marks: one more than the largest.
const MARKS: u8 = 1 << Automaton::SETS;

pub fn in_range(next: &[u8; Automaton::CELLS], marks: &[u8; Automaton::CELLS], start: usize) -> bool
    ensures { (result ≡ true) ↔ InRange next.now marks.now start }
{
    below(next, STATES) && below(marks, MARKS) && start < Automaton::STATES
}

// Whether each entry is below the bound.
fn below(table: &[u8; Automaton::CELLS], bound: u8) -> bool
    ensures { (result ≡ true) ↔ Below bound table.now }
{
    table.iter().all(|entry| *entry < bound)
}

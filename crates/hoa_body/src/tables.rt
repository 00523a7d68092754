// The table of the body so far.
ghost use Rattle.std.specs.Prelude.{◌≡◌, cond, ◌≤◌, ◌<◌, length};
ghost use Rattle.hoa_text.specs.Body.{begun};
ghost use Rattle.hoa_body.specs.Answers.{current_of, CurrentFits};
ghost use Rattle.hoa_body.specs.Tables.{HoldsNone, HoldsState, HoldsEdge, Filled};

use crate::{Current, Table};
use automaton::Automaton;
use bits::sets::{has, single};
use hoa_edges::EdgeRead;

pub fn no_states(opened: Automaton) -> Table
    ensures { HoldsNone opened result × CurrentFits result.current }
{
    let Automaton {
        destinations,
        marks,
        ..
    } = opened;
    Table {
        named: 0,
        given: [0u16; Automaton::STATES],
        current: None,
        destinations,
        marks,
    }
}

pub fn with_state(table: Table, state: usize, marks: u8) -> Table
    requires { state < 16 }
    ensures { HoldsState table state marks result × CurrentFits result.current }
{
    Table {
        named: single(state) | table.named,
        current: Some(begun(state, marks)),
        ..table
    }
}

// A state of whose edges none was read.
fn begun(state: usize, marks: u8) -> Current
    ensures { current_of result ≡ begun state marks }
{
    Current {
        state,
        shared: marks,
        labelled: false,
        listed: 0,
    }
}

// An edge of the counted state, for those of its letters that are among `letters`; the state's marks are joined with its own.
pub fn with_edge(table: Table, counted: Current, edge: EdgeRead, letters: usize) -> Table
    requires { (counted.state < 16) × (letters ≤ 16) × (edge.destination < 16) }
    ensures { HoldsEdge table counted edge.letters letters edge.destination edge.marks result × CurrentFits result.current }
{
    let mut next = Table {
        current: Some(counted),
        ..table
    };
    next.given[counted.state] |= edge.letters;
    let destination = edge.destination as u8;
    fill(
        &mut next.destinations,
        counted.state,
        edge.letters,
        letters,
        destination,
    );
    let marks = counted.shared | edge.marks;
    fill(&mut next.marks, counted.state, edge.letters, letters, marks);
    next
}

// The cells of a state for the letters of the set.
fn fill(cells: &mut [u8; Automaton::CELLS], state: usize, set: u16, letters: usize, value: u8)
    requires { (state < 16) × (letters ≤ 16) × (length cells.old ≡ 256) }
    ensures { Filled state set letters value cells.old cells.new }
{
    for letter in 0..letters {
        let cell = state * Automaton::LETTERS + letter;
        cells[cell] = either(has(set, letter), value, cells[cell]);
    }
}

// A choice without a jump: with an `if` around the write, a text of 13,000 edges took an eighth more instructions.
fn either(first: bool, one: u8, other: u8) -> u8
    ensures { result ≡ cond first one other }
{
    if first { one } else { other }
}

// The body of a HOA text: states and edges, up to `--END--`.
#![tactic(auto)]

mod edges;
mod parts;
mod states;
mod tables;

ghost use Rattle.hoa_body.specs.Answers.{Bounded, BodyOf, BodyAnswer};

use automaton::Automaton;
use bits::powers::power_of_two;
use parts::{Part, next_part};
use refusals::Refusal;
use tables::{no_states, with_edge, with_state};

// A state while its edges are read.
#[derive(Clone, Copy)]
pub struct Current {
    pub state: usize,
    // The marks that it shares with its edges.
    pub shared: u8,
    // Whether one of its edges had a label.
    pub labelled: bool,
    // How many had none.
    pub listed: usize,
}

// The body so far.
#[derive(Clone, Copy)]
pub struct Table {
    // The states that were named: bit q for the state q.
    pub named: u16,
    // For each state the letters that have an edge: bit l for the letter l.
    pub given: [u16; Automaton::STATES],
    // The state whose edges may stand here.
    pub current: Option<Current>,
    pub destinations: [u8; Automaton::CELLS],
    pub marks: [u8; Automaton::CELLS],
}

// The table that the body gives, and the offset directly behind `--END--`.
#[derive(Clone, Copy)]
pub struct BodyRead {
    pub table: Table,
    pub end: usize,
}

// The text from behind `--BODY--` on, once the header has given its counts; counts that no header gives are refused.
pub fn body(text: &[u8], at: usize, opened: Automaton) -> Result<BodyRead, Refusal>
    ensures { BodyAnswer text.now at opened result }
{
    if opened.states > Automaton::STATES
        || opened.propositions > Automaton::PROPOSITIONS
        || opened.sets > Automaton::SETS
    {
        return Err(Refusal::Outside);
    }
    parts_from(text, at, opened)
}

fn parts_from(text: &[u8], at: usize, opened: Automaton) -> Result<BodyRead, Refusal>
    requires { Bounded opened }
    ensures { BodyOf text.now at opened result }
{
    let letters = power_of_two(opened.propositions);
    let mut table = no_states(opened);
    let mut i = at;
    loop {
        match next_part(text, i, opened, table)? {
            Part::State { state, marks, end } => {
                table = with_state(table, state, marks);
                i = end;
            }
            Part::Edge { counted, edge } => {
                table = with_edge(table, counted, edge, letters);
                i = edge.end;
            }
            Part::End { end } => return Ok(BodyRead { table, end }),
        }
    }
}

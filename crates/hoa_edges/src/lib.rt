// An edge of the body: its label, destination and marks.
#![tactic(auto)]

ghost use Rattle.std.specs.Prelude.{◌≤◌, length};
ghost use Rattle.hoa_edges.specs.Answers.{EdgeAnswer, UnlabelledAnswer};
ghost use Rattle.hoa_edges.specs.Parts.{LabelledAnswer, MarkedAnswer};

use automaton::Automaton;
use hoa_formulas::label;
use hoa_marks::marks;
use hoa_offsets::{behind, offset};
use hoa_tokens::{Token, next_token};
use refusals::Refusal;

// What an edge says: its letters, its destination, its marks, and the offset behind them.
#[derive(Clone, Copy)]
pub struct EdgeRead {
    pub letters: u16,
    pub destination: usize,
    pub marks: u8,
    pub end: usize,
}

// Behind a `[`; a count of sets past the limit is refused.
pub fn edge(
    text: &[u8],
    at: usize,
    states: usize,
    propositions: usize,
    sets: usize,
) -> Result<EdgeRead, Refusal>
    ensures { EdgeAnswer text.now at states propositions sets result }
{
    if sets > Automaton::SETS {
        return Err(Refusal::Outside);
    }
    let read = label(text, at, propositions)?;
    labelled(text, read.end, states, sets, read.members)
}

// Behind a label.
fn labelled(
    text: &[u8],
    at: usize,
    states: usize,
    sets: usize,
    set: u16,
) -> Result<EdgeRead, Refusal>
    ensures { LabelledAnswer text.now at states sets set result }
{
    let Some(closed) = behind(text, at, b']') else {
        return Err(Refusal::Form(offset(text, at)));
    };
    unlabelled(text, closed, states, sets, set)
}

// An edge for the letters of the set, without its label; a count of sets past the limit is refused.
pub fn unlabelled(
    text: &[u8],
    at: usize,
    states: usize,
    sets: usize,
    set: u16,
) -> Result<EdgeRead, Refusal>
    ensures { UnlabelledAnswer text.now at states sets set result }
{
    if sets > Automaton::SETS {
        return Err(Refusal::Outside);
    }
    match next_token(text, at) {
        Token::Number(start, destination, next) => {
            if destination < states {
                marked(text, next, sets, set, destination)
            } else {
                Err(Refusal::Undeclared(start))
            }
        }
        _ => Err(Refusal::Form(offset(text, at))),
    }
}

// Behind a destination.
fn marked(
    text: &[u8],
    at: usize,
    sets: usize,
    set: u16,
    destination: usize,
) -> Result<EdgeRead, Refusal>
    requires { (at ≤ length text.now) × (sets ≤ 4) }
    ensures { MarkedAnswer text.now at sets set destination result }
{
    let read = marks(text, at, sets)?;
    Ok(EdgeRead {
        letters: set,
        destination,
        marks: read.marks,
        end: read.end,
    })
}

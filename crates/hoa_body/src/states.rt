// A state of the body: its number, its quoted text and its marks.
ghost use Rattle.std.specs.Prelude.{◌≤◌, ◌<◌, length};
ghost use Rattle.hoa_body.specs.Answers.{Bounded};
ghost use Rattle.hoa_body.specs.States.{StateAnswer, StateMarkedAnswer, Unquoted};

use crate::parts::Part;
use automaton::Automaton;
use bits::sets::has;
use hoa_marks::marks;
use hoa_offsets::offset;
use hoa_tokens::{Token, next_token};
use refusals::Refusal;

// Behind `State:`.
pub fn state_part(text: &[u8], at: usize, opened: Automaton, named: u16) -> Result<Part, Refusal>
    requires { Bounded opened }
    ensures { StateAnswer text.now at opened named result }
{
    match next_token(text, at) {
        Token::Number(start, state, next) => {
            if state >= opened.states {
                return Err(Refusal::Undeclared(start));
            }
            if has(named, state) {
                return Err(Refusal::Body(start, state));
            }
            state_marked(text, next, opened.sets, state)
        }
        _ => Err(Refusal::Form(offset(text, at))),
    }
}

// Behind the number of a state.
fn state_marked(text: &[u8], at: usize, sets: usize, state: usize) -> Result<Part, Refusal>
    requires { (at ≤ length text.now) × (sets ≤ 4) × (state < 16) }
    ensures { StateMarkedAnswer text.now at sets state result }
{
    let read = marks(text, unquoted(text, at), sets)?;
    Ok(Part::State {
        state,
        marks: read.marks,
        end: read.end,
    })
}

// The offset behind a quoted text; `at` where none stands first.
fn unquoted(text: &[u8], at: usize) -> usize
    requires { at ≤ length text.now }
    ensures { Unquoted text.now at result }
{
    match next_token(text, at) {
        Token::Quoted(_, end) => end + 1,
        _ => at,
    }
}

// The marks of a state or an edge.
#![tactic(auto)]

ghost use Rattle.std.specs.Prelude.{◌≤◌};
ghost use Rattle.hoa_text.specs.Body.{marks};
ghost use Rattle.hoa_text.specs.Tokens.{left};
ghost use Rattle.hoa_marks.specs.Answers.{MarksMean, MarksAnswer};
ghost use Rattle.hoa_marks.specs.Closing.{ClosedAnswer};

use automaton::Automaton;
use bits::powers::power_of_two;
use hoa_offsets::{behind, offset};
use hoa_tokens::{Token, next_token};
use refusals::Refusal;

// A set of marks, and the offset behind it.
#[derive(Clone, Copy)]
pub struct MarksRead {
    pub marks: u8,
    pub end: usize,
}

// The marks that may stand next; a count of sets past the limit is refused.
pub fn marks(text: &[u8], at: usize, sets: usize) -> Result<MarksRead, Refusal>
    ensures { MarksAnswer text.now at sets result }
{
    if sets > Automaton::SETS {
        return Err(Refusal::Outside);
    }
    let Some(opened) = behind(text, at, b'{') else {
        return Ok(MarksRead { marks: 0, end: at });
    };
    listed(text, opened, sets)
}

// Behind a `{`.
fn listed(text: &[u8], at: usize, sets: usize) -> Result<MarksRead, Refusal>
    requires { sets ≤ 4 }
    ensures { MarksMean text.now at (marks sets 0 (left text.now at)) result }
{
    let mut set: u8 = 0;
    let mut i = at;
    while let Token::Number(start, mark, next) = next_token(text, i) {
        if mark >= sets {
            return Err(Refusal::Undeclared(start));
        }
        set |= power_of_two(mark) as u8;
        i = next;
    }
    closed(text, i, set)
}

// The `}` behind the marks of the set.
fn closed(text: &[u8], at: usize, set: u8) -> Result<MarksRead, Refusal>
    ensures { ClosedAnswer text.now at set result }
{
    let Some(end) = behind(text, at, b'}') else {
        return Err(Refusal::Form(offset(text, at)));
    };
    Ok(MarksRead { marks: set, end })
}

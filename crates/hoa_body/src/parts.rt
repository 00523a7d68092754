// What the body is made of: states, edges and its end.
ghost use Rattle.hoa_body.specs.Answers.{Bounded, CurrentFits};
ghost use Rattle.hoa_body.specs.Parts.{PartAnswer};

use crate::edges::{labelled_edge, listed_edge, takes_label, takes_listed};
use crate::states::state_part;
use crate::{Current, Table};
use automaton::Automaton;
use bits::powers::power_of_two;
use hoa_edges::EdgeRead;
use hoa_offsets::offset;
use hoa_tokens::{Token, next_token};
use hoa_words::{END, STATE, names_item};
use refusals::Refusal;

// What stands first in the body, and the offset directly behind it.
#[derive(Clone, Copy)]
pub enum Part {
    State { state: usize, marks: u8, end: usize },
    // An edge of the current state, with this edge counted.
    Edge { counted: Current, edge: EdgeRead },
    // `--END--`
    End { end: usize },
}

pub fn next_part(text: &[u8], at: usize, opened: Automaton, table: Table) -> Result<Part, Refusal>
    requires { Bounded opened × CurrentFits table.current }
    ensures { PartAnswer text.now at opened table result }
{
    match next_token(text, at) {
        Token::Item(start, colon) => {
            if !names_item(text, start, colon, &STATE) {
                return Err(Refusal::Form(start));
            }
            state_part(text, colon + 1, opened, table.named)
        }
        Token::Sign(start, byte) => {
            let current = table.current.ok_or(Refusal::Form(start))?;
            if byte != b'[' || !takes_label(current) {
                return Err(Refusal::Form(start));
            }
            labelled_edge(text, start + 1, opened, table, current)
        }
        Token::Number(start, _, _) => {
            let current = table.current.ok_or(Refusal::Form(start))?;
            if !takes_listed(current, power_of_two(opened.propositions)) {
                return Err(Refusal::Form(start));
            }
            listed_edge(text, at, opened, table, current)
        }
        Token::End(start) => Ok(Part::End {
            end: start + END.len(),
        }),
        _ => Err(Refusal::Form(offset(text, at))),
    }
}

// The header of a HOA text.
#![tactic(auto)]

mod expected;
mod items;

ghost use Rattle.std.specs.Prelude.{◌≤◌, length};
ghost use Rattle.hoa_header.specs.Answers.{Answers};
ghost use Rattle.hoa_header.specs.Opening.{ReadsItems, Opens};

use automaton::Automaton;
use expected::behind_item;
use hoa_acceptance::behind_word;
use hoa_names::{Names, none};
use hoa_offsets::offset;
use hoa_tokens::{Token, next_token};
use hoa_words::{BODY, HOA, VERSION};
use items::{Items, item, no_items};
use refusals::Refusal;

// The automaton with the header's counts and names and no transitions yet, and the offset directly behind `--BODY--`.
#[derive(Clone, Copy)]
pub struct HeaderRead {
    pub automaton: Automaton,
    pub end: usize,
}

pub fn header(text: &[u8]) -> Result<HeaderRead, Refusal>
    ensures { Answers text.now result }
{
    let Some(version) = behind_item(text, 0, &HOA) else {
        return Err(Refusal::Form(offset(text, 0)));
    };
    let Some(first) = behind_word(text, version, &VERSION) else {
        return Err(Refusal::Form(offset(text, version)));
    };
    items_from(text, first)
}

// The items at or after an offset, up to `--BODY--`.
fn items_from(text: &[u8], at: usize) -> Result<HeaderRead, Refusal>
    requires { at ≤ length text.now }
    ensures { ReadsItems text.now at result }
{
    let mut items = no_items();
    let mut end = at;
    loop {
        match next_token(text, end) {
            Token::Item(start, colon) => {
                let read = item(text, start, colon, items)?;
                items = read.items;
                end = read.end;
            }
            Token::Body(start) => return opening(items, start, start + BODY.len()),
            _ => return Err(Refusal::Form(offset(text, end))),
        }
    }
}

// `--BODY--` at an offset, with the offset behind it.
fn opening(items: Items, at: usize, end: usize) -> Result<HeaderRead, Refusal>
    ensures { Opens items at end result }
{
    let states = items.states.ok_or(Refusal::Item(at))?;
    let start = items.start.ok_or(Refusal::Item(at))?;
    let accepting = items.accepting.ok_or(Refusal::Item(at))?;
    if start.state >= states {
        return Err(Refusal::Undeclared(start.offset));
    }
    let Names {
        count,
        lengths,
        bytes,
    } = items.names.unwrap_or(none());
    Ok(HeaderRead {
        automaton: Automaton {
            states,
            start: start.state,
            propositions: count,
            sets: accepting.sets,
            acceptance: accepting.acceptance,
            lengths,
            names: bytes,
            ..Automaton::empty()
        },
        end,
    })
}

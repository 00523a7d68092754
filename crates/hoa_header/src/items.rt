// The items of a header: `States:`, `Start:`, `AP:` and `Acceptance:`, each once, and others that are skipped.
ghost use Rattle.std.specs.Prelude.{◌≡◌, ◌+◌, ◌≤◌, ◌<◌, length};
ghost use Rattle.hoa_text.specs.Header.{no_items};
ghost use Rattle.hoa_header.specs.Kept.{kept, ReadsItem, ReadsStates, StatesGiven, ReadsStart, ReadsAp, ReadsAcceptance, Skips};

use crate::expected::behind_plain;
use automaton::Automaton;
use hoa_acceptance::acceptance;
use hoa_names::{Names, propositions};
use hoa_offsets::offset;
use hoa_tokens::{Token, next_token};
use hoa_words::{ACCEPTANCE, AP, START, STATES, names_item};
use refusals::Refusal;

// The items read so far.
#[derive(Clone, Copy)]
pub struct Items {
    pub states: Option<usize>,
    pub start: Option<Start>,
    pub names: Option<Names>,
    pub accepting: Option<Accepting>,
}

// The number behind `Start:`, and that number's offset.
#[derive(Clone, Copy)]
pub struct Start {
    pub state: usize,
    pub offset: usize,
}

// The number of sets, and the acceptance: bit x for the set of marks x.
#[derive(Clone, Copy)]
pub struct Accepting {
    pub sets: usize,
    pub acceptance: u16,
}

// The items with one more, and the offset directly behind it.
#[derive(Clone, Copy)]
pub struct ItemRead {
    pub items: Items,
    pub end: usize,
}

pub fn no_items() -> Items
    ensures { result ≡ kept no_items }
{
    Items {
        states: None,
        start: None,
        names: None,
        accepting: None,
    }
}

// The item whose name stands from `start` up to its colon.
pub fn item(text: &[u8], start: usize, colon: usize, items: Items) -> Result<ItemRead, Refusal>
    requires { (start < colon) × (colon + 1 ≤ length text.now) }
    ensures { ReadsItem text.now start colon items result }
{
    if names_item(text, start, colon, &STATES) {
        return states_item(text, start, colon + 1, items);
    }
    if names_item(text, start, colon, &START) {
        return start_item(text, start, colon + 1, items);
    }
    if names_item(text, start, colon, &AP) {
        return ap_item(text, start, colon + 1, items);
    }
    if names_item(text, start, colon, &ACCEPTANCE) {
        return acceptance_item(text, start, colon + 1, items);
    }
    if !text[start].is_ascii_lowercase() {
        return Err(Refusal::Form(start));
    }
    Ok(ItemRead {
        items,
        end: skip(text, colon + 1),
    })
}

// What stands behind `States:`, whose name stands at `name`; so for the items below.
fn states_item(text: &[u8], name: usize, at: usize, items: Items) -> Result<ItemRead, Refusal>
    ensures { ReadsStates text.now name at items result }
{
    if items.states.is_some() {
        return Err(Refusal::Item(name));
    }
    match next_token(text, at) {
        Token::Number(offset, value, end) => states_given(offset, value, end, items),
        _ => Err(Refusal::Form(offset(text, at))),
    }
}

fn states_given(at: usize, value: usize, end: usize, items: Items) -> Result<ItemRead, Refusal>
    ensures { StatesGiven at value end items result }
{
    if value == 0 || value > Automaton::STATES {
        return Err(Refusal::Size(at));
    }
    Ok(ItemRead {
        items: Items {
            states: Some(value),
            ..items
        },
        end,
    })
}

// Behind `Start:`.
fn start_item(text: &[u8], name: usize, at: usize, items: Items) -> Result<ItemRead, Refusal>
    ensures { ReadsStart text.now name at items result }
{
    if items.start.is_some() {
        return Err(Refusal::Item(name));
    }
    match next_token(text, at) {
        Token::Number(offset, state, end) => Ok(ItemRead {
            items: Items {
                start: Some(Start { state, offset }),
                ..items
            },
            end,
        }),
        _ => Err(Refusal::Form(offset(text, at))),
    }
}

// Behind `AP:`.
fn ap_item(text: &[u8], name: usize, at: usize, items: Items) -> Result<ItemRead, Refusal>
    ensures { ReadsAp text.now name at items result }
{
    if items.names.is_some() {
        return Err(Refusal::Item(name));
    }
    let read = propositions(text, at)?;
    Ok(ItemRead {
        items: Items {
            names: Some(read.names),
            ..items
        },
        end: read.end,
    })
}

// Behind `Acceptance:`.
fn acceptance_item(text: &[u8], name: usize, at: usize, items: Items) -> Result<ItemRead, Refusal>
    ensures { ReadsAcceptance text.now name at items result }
{
    if items.accepting.is_some() {
        return Err(Refusal::Item(name));
    }
    let read = acceptance(text, at)?;
    Ok(ItemRead {
        items: Items {
            accepting: Some(Accepting {
                sets: read.sets,
                acceptance: read.acceptance,
            }),
            ..items
        },
        end: read.end,
    })
}

// The offset behind words, numbers and quoted texts.
fn skip(text: &[u8], at: usize) -> usize
    requires { at ≤ length text.now }
    ensures { Skips text.now at result }
{
    let mut end = at;
    while let Some(next) = behind_plain(text, end) {
        end = next;
    }
    end
}

// The reader of HOA text: the header, the body, and what is judged after the whole text.
#![tactic(auto)]

mod missing;

ghost use Rattle.std.specs.Prelude.{◌≡◌};
ghost use Rattle.hoa_text.specs.Grammar.{then};
ghost use Rattle.hoa_text.specs.Header.{Header};
ghost use Rattle.hoa_text.specs.Body.{body};
ghost use Rattle.hoa_text.specs.Reading.{ended, read};
ghost use Rattle.hoa_text.specs.Tokens.{left};
ghost use Rattle.hoa_body.specs.Answers.{Bounded, Opens};
ghost use Rattle.hoa_read.specs.Missing.{MadeAnswer, WholeAnswer, EndedAnswer};
ghost use Rattle.hoa_read.specs.Told.{told, returned, fault};

use automaton::Automaton;
use bits::powers::power_of_two;
use bits::sets::lowest;
use hoa_body::{Table, body};
use hoa_formulas::ALL;
use hoa_header::header;
use hoa_offsets::offset;
use hoa_tokens::{Token, next_token};
use missing::first_gap;
use refusals::Refusal;

// The most bytes that a text may have.
pub const TEXT: usize = 65536;

// The automaton that a text gives, or why it is refused.
pub fn read(text: &[u8]) -> Result<Automaton, Refusal>
    ensures is { result ≡ told (read text.now) }
    ensures number { returned result ≡ fault (read text.now) }
{
    if text.len() > TEXT {
        return Err(Refusal::Size(TEXT));
    }
    let opened = header(text)?;
    from_body(text, opened.end, opened.automaton)
}

// The text from behind `--BODY--` on, once the header has given its counts and names.
fn from_body(text: &[u8], at: usize, opened: Automaton) -> Result<Automaton, Refusal>
    requires { Bounded opened }
    ensures { (h : Header) → Opens opened h → result ≡ told (then (body h (left text.now at)) (ended h)) }
{
    let read = body(text, at, opened)?;
    ended(text, read.end, opened, read.table)
}

// Behind `--END--`: only blanks may follow.
fn ended(text: &[u8], at: usize, opened: Automaton, table: Table) -> Result<Automaton, Refusal>
    requires { Bounded opened }
    ensures { EndedAnswer text.now at opened table result }
{
    match next_token(text, at) {
        Token::Over(end) => whole(opened, table, end),
        Token::Broken(start, _) => Err(Refusal::Form(start)),
        _ => Err(Refusal::Form(offset(text, at))),
    }
}

// Missing states and edges, judged after the whole text, which ends at `end`.
fn whole(opened: Automaton, table: Table, end: usize) -> Result<Automaton, Refusal>
    requires { Bounded opened }
    ensures { WholeAnswer opened table end result }
{
    let states = opened.states;
    let unnamed = lowest(table.named ^ ALL, states);
    if unnamed < states {
        return Err(Refusal::Body(end, unnamed));
    }
    match first_gap(&table.given, states, power_of_two(opened.propositions)) {
        Some(gap) => Err(Refusal::NoEdge(gap.state, gap.letter)),
        None => Ok(made(opened, table)),
    }
}

fn made(opened: Automaton, table: Table) -> Automaton
    ensures { MadeAnswer opened table result }
{
    let Table {
        destinations,
        marks,
        ..
    } = table;
    Automaton {
        destinations,
        marks,
        ..opened
    }
}

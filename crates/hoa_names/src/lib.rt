// The proposition names of a HOA header: what stands behind `AP:`.
#![tactic(auto)]

mod name;

ghost use Rattle.std.specs.Prelude.{◌≡◌, false, [], ◌-◌, ◌≤◌, length, get_or};
ghost use Rattle.hoa_text.specs.Tokens.{blank, left};
ghost use Rattle.hoa_text.specs.Header.{naming};
ghost use Rattle.hoa_names.specs.Answers.{held, ReadsNames};
ghost use Rattle.hoa_names.specs.Naming.{Answers};

use automaton::Automaton;
use hoa_offsets::offset;
use hoa_tokens::{Token, next_token};
use name::name;
use refusals::Refusal;

// The bytes of name i stand from `i * Automaton::NAME` on. Slots that are not in use are 0.
#[derive(Clone, Copy)]
pub struct Names {
    pub count: usize,
    pub lengths: [u8; Automaton::PROPOSITIONS],
    pub bytes: [u8; Automaton::NAMES],
}

// The names, and the offset directly behind the last of them.
#[derive(Clone, Copy)]
pub struct NamesRead {
    pub names: Names,
    pub end: usize,
}

// The number of propositions at or after an offset, and their names; or why they are refused.
pub fn propositions(text: &[u8], at: usize) -> Result<NamesRead, Refusal>
    ensures { ReadsNames text.now at result }
{
    match next_token(text, at) {
        Token::Number(offset, count, end) => {
            if count > Automaton::PROPOSITIONS {
                return Err(Refusal::Size(offset));
            }
            names_from(text, end, count)
        }
        _ => Err(Refusal::Form(offset(text, at))),
    }
}

fn names_from(text: &[u8], at: usize, count: usize) -> Result<NamesRead, Refusal>
    requires { (at ≤ length text.now) × (count ≤ 4) × (blank (get_or text.now (at - 1) 0) ≡ false) }
    ensures { Answers text.now at (naming count [] (left text.now at)) result }
{
    let mut read = NamesRead {
        names: none(),
        end: at,
    };
    for _i in 0..count {
        read = name(text, read.end, read.names)?;
    }
    Ok(read)
}

// No names.
pub fn none() -> Names
    ensures { result ≡ held [] }
{
    Names {
        count: 0,
        lengths: [0u8; Automaton::PROPOSITIONS],
        bytes: [0u8; Automaton::NAMES],
    }
}

// What stands behind `Acceptance:`: the number of sets, and a formula that says yes or no for each set of marks.
#![tactic(auto)]

ghost use Rattle.std.specs.Prelude.{◌≡◌, ◌^◌, ◌≤◌, min};
ghost use Rattle.meaning.specs.BitSet.{has, set_of};
ghost use Rattle.hoa_acceptance.specs.Answers.{ReadsSets, Past, is_word_of};
ghost use Rattle.hoa_acceptance.specs.Parts.{ReadsCondition};

use acceptance::all_true;
use automaton::Automaton;
use hoa_formulas::condition;
use hoa_offsets::offset;
use hoa_tokens::{Token, next_token};
use hoa_words::spells;
use refusals::Refusal;

// The number of sets, the acceptance, bit x for the set of marks x, and the offset behind its formula.
#[derive(Clone, Copy)]
pub struct SetsRead {
    pub sets: usize,
    pub acceptance: u16,
    pub end: usize,
}

pub fn acceptance(text: &[u8], at: usize) -> Result<SetsRead, Refusal>
    ensures { ReadsSets text.now at result }
{
    match next_token(text, at) {
        Token::Number(offset, sets, end) => {
            if sets > Automaton::SETS {
                return Err(Refusal::Size(offset));
            }
            counted(text, end, sets)
        }
        _ => Err(Refusal::Form(offset(text, at))),
    }
}

// Behind the number of sets.
fn counted(text: &[u8], at: usize, sets: usize) -> Result<SetsRead, Refusal>
    requires { sets ≤ 4 }
    ensures { ReadsCondition text.now at sets result }
{
    let read = condition(text, at, sets)?;
    Ok(SetsRead {
        sets,
        acceptance: own(read.members, sets),
        end: read.end,
    })
}

// The members among the sets of marks that so many sets have.
fn own(members: u16, sets: usize) -> u16
    ensures { result ≡ set_of (2 ^ min sets 4) (has members) }
{
    members & all_true(sets)
}

// The offset behind a word, where that word stands first.
pub fn behind_word(text: &[u8], at: usize, word: &[u8]) -> Option<usize>
    ensures { Past (is_word_of word.now) text.now at result }
{
    match next_token(text, at) {
        Token::Word(start, end) => if spells(text, start, end, word) {
            Some(end)
        } else {
            None
        },
        _ => None,
    }
}

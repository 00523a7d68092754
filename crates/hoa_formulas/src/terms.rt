// What a formula is built of: `t` and `f`, and propositions or sets.
ghost use Rattle.std.specs.Prelude.{◌≡◌, true, ◌⊎◌, ◌<◌, ◌≤◌, length, get_or};
ghost use Rattle.hoa_text.specs.Tokens.{digit, left};
ghost use Rattle.hoa_text.specs.Formulas.{proposition, declared, parsed_set, atom};
ghost use Rattle.hoa_text.specs.Formulas as Formulas;
ghost use Rattle.hoa_formulas.specs.Answers.{Answers, Satisfy};
ghost use Rattle.hoa_formulas.specs.Parts.{atoms_of, ConstantAt, ConstantWord, SetWord, Given};

use crate::around::{closed, complement};
use crate::{ALL, Atoms, FormulaRead};
use hoa_offsets::{behind, offset};
use hoa_tokens::{Token, next_token, number_here};
use hoa_words::{FALSE, FIN, INF, TRUE, spells};
use refusals::Refusal;

// Whether `!` is an operator: not of a condition.
pub fn negates(over: Atoms) -> bool
    ensures { result ≡ Formulas.negates (atoms_of over) }
{
    match over {
        Atoms::Propositions(_) => true,
        Atoms::Sets(_) => false,
    }
}

// A number, at the digit that opens it: a proposition, and nothing of a condition.
pub fn numbered(text: &[u8], at: usize, over: Atoms) -> Result<FormulaRead, Refusal>
    requires { digit (get_or text.now at 0) ≡ true }
    ensures { Answers text.now at (atom (atoms_of over) (left text.now at)) result }
{
    match over {
        Atoms::Propositions(count) => proposition(text, at, count),
        Atoms::Sets(_) => Err(Refusal::Form(offset(text, at))),
    }
}

// A word that begins as `Inf` or `Fin` does: a set, and nothing of a label.
pub fn named(text: &[u8], at: usize, over: Atoms) -> Result<FormulaRead, Refusal>
    requires { (get_or text.now at 0 ≡ 73) ⊎ (get_or text.now at 0 ≡ 70) }
    ensures { Answers text.now at (atom (atoms_of over) (left text.now at)) result }
{
    match over {
        Atoms::Propositions(_) => Err(Refusal::Form(offset(text, at))),
        Atoms::Sets(count) => set(text, at, count),
    }
}

// `t` or `f`.
pub fn constant(text: &[u8], at: usize) -> Result<FormulaRead, Refusal>
    ensures { ConstantAt text.now at result }
{
    match next_token(text, at) {
        Token::Word(offset, end) => constant_word(text, offset, end),
        _ => Err(Refusal::Form(offset(text, at))),
    }
}

// The word from `start` up to `end`.
fn constant_word(text: &[u8], start: usize, end: usize) -> Result<FormulaRead, Refusal>
    requires { (start < end) × (end ≤ length text.now) }
    ensures { ConstantWord text.now start end result }
{
    if spells(text, start, end, &TRUE) {
        return Ok(FormulaRead { members: ALL, end });
    }
    if spells(text, start, end, &FALSE) {
        return Ok(FormulaRead { members: 0, end });
    }
    Err(Refusal::Form(start))
}

// `Inf` or `Fin`, and its set.
fn set(text: &[u8], at: usize, sets: usize) -> Result<FormulaRead, Refusal>
    ensures { Answers text.now at (Formulas.named (Formulas.sets sets) (left text.now at)) result }
{
    match next_token(text, at) {
        Token::Word(offset, end) => set_word(text, offset, end, sets),
        _ => Err(Refusal::Form(offset(text, at))),
    }
}

// The word from `start` up to `end`, and what follows it.
fn set_word(text: &[u8], start: usize, end: usize, sets: usize) -> Result<FormulaRead, Refusal>
    requires { (start < end) × (end ≤ length text.now) }
    ensures { SetWord text.now start end sets result }
{
    if spells(text, start, end, &INF) {
        return set_in_brackets(text, end, sets);
    }
    if spells(text, start, end, &FIN) {
        let read = set_in_brackets(text, end, sets)?;
        return Ok(complement(read));
    }
    Err(Refusal::Form(start))
}

// A set in brackets.
fn set_in_brackets(text: &[u8], at: usize, sets: usize) -> Result<FormulaRead, Refusal>
    ensures { Answers text.now at (parsed_set sets (left text.now at)) result }
{
    let Some(next) = behind(text, at, b'(') else {
        return Err(Refusal::Form(offset(text, at)));
    };
    let read = declared(text, next, sets)?;
    closed(text, read)
}

// A proposition's number, of so many that are declared: it mostly stands right there.
fn proposition(text: &[u8], at: usize, count: usize) -> Result<FormulaRead, Refusal>
    ensures { Answers text.now at (declared count (left text.now at)) result }
{
    let here = number_here(text, at);
    let value = here.value;
    let end = here.end;
    if end == at {
        return declared(text, at, count);
    }
    number(at, value, end, count)
}

// A number, of so many that are declared.
fn declared(text: &[u8], at: usize, count: usize) -> Result<FormulaRead, Refusal>
    ensures { Answers text.now at (declared count (left text.now at)) result }
{
    match next_token(text, at) {
        Token::Number(offset, value, end) => number(offset, value, end, count),
        _ => Err(Refusal::Form(offset(text, at))),
    }
}

// The number `value`, from `start` up to `end`, of so many that are declared.
fn number(start: usize, value: usize, end: usize, count: usize) -> Result<FormulaRead, Refusal>
    ensures { Given start value end count result }
{
    if value < count {
        Ok(FormulaRead {
            members: letters_with(value),
            end,
        })
    } else {
        Err(Refusal::Undeclared(start))
    }
}

// The letters that have a proposition; the sets of marks that have a set.
fn letters_with(number: usize) -> u16
    ensures { Satisfy result (proposition number) }
{
    match number {
        0 => 43690,
        1 => 52428,
        2 => 61680,
        3 => 65280,
        _ => 0,
    }
}

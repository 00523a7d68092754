// The labels of edges, read as sets of letters, and acceptance conditions, read as sets of sets of marks.
#![tactic(auto)]

mod around;
mod terms;
mod tokens;

ghost use Rattle.hoa_text.specs.Formulas.{label, acceptance_formula, unary, conjunctions, disjunctions};
ghost use Rattle.hoa_text.specs.Tokens.{left};
ghost use Rattle.hoa_formulas.specs.Answers.{Answers};
ghost use Rattle.hoa_formulas.specs.Parts.{atoms_of};

use around::{closed, complement};
use automaton::Automaton;
use hoa_offsets::offset;
use refusals::Refusal;
use terms::{constant, named, negates, numbered};
use tokens::{FormulaToken, formula_token};

// What a formula says: the letters, or the sets of marks, that satisfy it, bit x for x, and the offset behind it.
#[derive(Clone, Copy)]
pub struct FormulaRead {
    pub members: u16,
    pub end: usize,
}

// What a formula is read over: so many propositions, or so many sets.
#[derive(Clone, Copy)]
pub enum Atoms {
    Propositions(usize),
    Sets(usize),
}

// "open ! and brackets together nest at most 32 deep"
const NESTING: usize = 32;

// The set of all letters; of all sets of marks and of all states too, of which there are as many.
pub const ALL: u16 = ((1usize << Automaton::LETTERS) - 1) as u16;

// The label at or after an offset.
pub fn label(text: &[u8], at: usize, propositions: usize) -> Result<FormulaRead, Refusal>
    ensures { Answers text.now at (label propositions (left text.now at)) result }
{
    or(text, at, Atoms::Propositions(propositions), NESTING)
}

// The acceptance condition at or after an offset.
pub fn condition(text: &[u8], at: usize, sets: usize) -> Result<FormulaRead, Refusal>
    ensures { Answers text.now at (acceptance_formula sets (left text.now at)) result }
{
    or(text, at, Atoms::Sets(sets), NESTING)
}

#[cycle(and_or_unary)]
fn or(text: &[u8], at: usize, over: Atoms, depth: usize) -> Result<FormulaRead, Refusal>
    ensures { Answers text.now at (disjunctions (unary depth (atoms_of over)) (left text.now at)) result }
{
    let mut read = and(text, at, over, depth)?;
    while let FormulaToken::Or(sign) = formula_token(text, read.end) {
        let next = and(text, sign + 1, over, depth)?;
        read = FormulaRead {
            members: read.members | next.members,
            end: next.end,
        };
    }
    Ok(read)
}

// Inlined into `or`: as a call, a label of many operands took a quarter more instructions.
#[cycle(and_or_unary)]
#[inline(always)]
fn and(text: &[u8], at: usize, over: Atoms, depth: usize) -> Result<FormulaRead, Refusal>
    ensures { Answers text.now at (conjunctions (unary depth (atoms_of over)) (left text.now at)) result }
{
    let mut read = unary(text, at, over, depth)?;
    while let FormulaToken::And(sign) = formula_token(text, read.end) {
        let next = unary(text, sign + 1, over, depth)?;
        read = FormulaRead {
            members: read.members & next.members,
            end: next.end,
        };
    }
    Ok(read)
}

// A negation, an expression in brackets, or an atom.
#[cycle(and_or_unary)]
fn unary(text: &[u8], at: usize, over: Atoms, depth: usize) -> Result<FormulaRead, Refusal>
    ensures { Answers text.now at (unary depth (atoms_of over) (left text.now at)) result }
{
    match formula_token(text, at) {
        FormulaToken::Not(sign) => {
            if !negates(over) {
                return Err(Refusal::Form(sign));
            }
            if depth == 0 {
                return Err(Refusal::Size(sign));
            }
            let read = unary(text, sign + 1, over, depth - 1)?;
            Ok(complement(read))
        }
        FormulaToken::Open(sign) => {
            if depth == 0 {
                return Err(Refusal::Size(sign));
            }
            let read = or(text, sign + 1, over, depth - 1)?;
            closed(text, read)
        }
        FormulaToken::Number(number) => numbered(text, number, over),
        FormulaToken::Constant(word) => constant(text, word),
        FormulaToken::Name(word) => named(text, word, over),
        _ => Err(Refusal::Form(offset(text, at))),
    }
}

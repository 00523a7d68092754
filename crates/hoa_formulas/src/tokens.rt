// The token of a formula that stands next, by its first byte.
ghost use Rattle.hoa_formulas.specs.Choice.{Chosen};

use hoa_tokens::first_byte;

// The number of each is the token's offset.
#[derive(Clone, Copy)]
pub enum FormulaToken {
    Not(usize),
    And(usize),
    Or(usize),
    Open(usize),
    Close(usize),
    // A word that begins as `t` or `f` does.
    Constant(usize),
    // A proposition's number.
    Number(usize),
    // A word that begins as `Inf` or `Fin` does.
    Name(usize),
    // No token of a formula, or the end of the text.
    Other(usize),
}

pub fn formula_token(text: &[u8], at: usize) -> FormulaToken
    ensures { Chosen text.now at result }
{
    let first = first_byte(text, at);
    let offset = first.offset;
    let byte = first.byte;
    match byte {
        b'!' => FormulaToken::Not(offset),
        b'&' => FormulaToken::And(offset),
        b'|' => FormulaToken::Or(offset),
        b'(' => FormulaToken::Open(offset),
        b')' => FormulaToken::Close(offset),
        b't' => FormulaToken::Constant(offset),
        b'f' => FormulaToken::Constant(offset),
        b'I' => FormulaToken::Name(offset),
        b'F' => FormulaToken::Name(offset),
        b'0'..=b'9' => FormulaToken::Number(offset),
        _ => FormulaToken::Other(offset),
    }
}

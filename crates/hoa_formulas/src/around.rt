// What stands around an expression: what denies it, and brackets.
ghost use Rattle.hoa_formulas.specs.Parts.{Denies, Closes};

use crate::tokens::{FormulaToken, formula_token};
use crate::{ALL, FormulaRead};
use hoa_offsets::offset;
use refusals::Refusal;

// Behind the operand of a `!`, or the set of a Fin.
pub fn complement(read: FormulaRead) -> FormulaRead
    ensures { Denies read result }
{
    FormulaRead {
        members: read.members ^ ALL,
        end: read.end,
    }
}

// Behind an expression in brackets.
pub fn closed(text: &[u8], read: FormulaRead) -> Result<FormulaRead, Refusal>
    ensures { Closes text.now read result }
{
    match formula_token(text, read.end) {
        FormulaToken::Close(sign) => Ok(FormulaRead {
            members: read.members,
            end: sign + 1,
        }),
        _ => Err(Refusal::Form(offset(text, read.end))),
    }
}

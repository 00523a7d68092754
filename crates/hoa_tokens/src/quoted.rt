// Quoted texts.
ghost use Rattle.std.specs.Prelude.{◌≡◌, not, ◌&&◌, eqb, get_or};
ghost use Rattle.hoa_tokens.specs.Answers.{Reads};

use crate::Token;

// A backslash carries the next byte.
pub fn quoted(text: &[u8], start: usize) -> Token
    requires { get_or text.now start 0 ≡ 34 }
    ensures { Reads text.now start result }
{
    let mut carried = false;
    for end in start + 1..text.len() {
        let byte = text[end];
        if free(carried, byte, b'"') {
            return Token::Quoted(start, end);
        }
        carried = free(carried, byte, b'\\');
    }
    Token::Broken(start, text.len())
}

// Whether a byte is the sought one, and is not carried.
fn free(carried: bool, byte: u8, sought: u8) -> bool
    ensures { result ≡ (not carried && eqb byte sought) }
{
    !carried & (byte == sought)
}

// Numbers.
ghost use Rattle.std.specs.Prelude.{◌≡◌, true, ◌+◌, ◌-◌, ◌*◌, ◌≤◌, min, length, get_or};
ghost use Rattle.hoa_text.specs.Tokens.{digit};
ghost use Rattle.hoa_tokens.specs.Answers.{Reads};
ghost use Rattle.hoa_tokens.specs.Kinds.{Digits};

use crate::bytes::is_digit;
use crate::{DigitRun, Token};

pub fn number(text: &[u8], start: usize) -> Token
    requires { digit (get_or text.now start 0) ≡ true }
    ensures { Reads text.now start result }
{
    let run = digits(text, start);
    let end = run.end;
    if text[start] == b'0' {
        if start + 1 < end {
            return Token::Unread(start, end);
        }
    }
    Token::Number(start, run.value, end)
}

// Numbers have any length, and saturate here: every limit lies below it.
const LARGEST: usize = 255;

// The run of digits at `start`: its value, `LARGEST` where it is more, and its end.
pub fn digits(text: &[u8], start: usize) -> DigitRun
    requires { start ≤ length text.now }
    ensures { Digits text.now start result.value result.end }
{
    let mut value = 0;
    for end in start..text.len() {
        let byte = text[end];
        if !is_digit(byte) {
            return DigitRun { value, end };
        }
        value = with_digit(value, byte);
    }
    DigitRun {
        value,
        end: text.len(),
    }
}

fn with_digit(value: usize, byte: u8) -> usize
    requires { (value ≤ 255) × (48 ≤ byte) }
    ensures { result ≡ min (value * 10 + (byte - 48)) 255 }
{
    let more = value * 10 + usize::from(byte - b'0');
    if more <= LARGEST { more } else { LARGEST }
}

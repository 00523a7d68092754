// The tokens of a HOA text, one at a time, from an offset on.
#![tactic(auto)]

mod bytes;
mod names;
mod numbers;
mod quoted;
mod signs;

ghost use Rattle.std.specs.Prelude.{◌≡◌, get_or};
ghost use Rattle.hoa_tokens.specs.Answers.{Reads, NumberHere, Skipped};
ghost use Rattle.hoa_tokens.specs.Kinds.{Other};

use bytes::{byte_at, opens_sign, opens_word, skip_blanks};
use names::{alias, name};
use numbers::{digits, number};
use quoted::quoted;
use signs::body_word;

// What stands first at or after an offset. The first number of each is the token's offset.
#[derive(Clone, Copy)]
pub enum Token {
    // A word, and its end.
    Word(usize, usize),
    // An item name, and the offset of its colon.
    Item(usize, usize),
    // A number, its value up to 255, and its end.
    Number(usize, usize, usize),
    // A quoted text, and the offset of the quote that ends it.
    Quoted(usize, usize),
    // One of `! & | ( ) [ ] { }`.
    Sign(usize, u8),
    // `--BODY--`
    Body(usize),
    // `--END--`
    End(usize),
    // `--ABORT--`
    Abort(usize),
    // A token that stands nowhere in the form read here, and its end.
    Unread(usize, usize),
    // The end of the text.
    Over(usize),
    // No token, and the offset at which that is refused.
    Broken(usize, usize),
}

// An offset past the end is the end of the text.
pub fn next_token(text: &[u8], at: usize) -> Token
    ensures { Reads text.now at result }
{
    let start = skip_blanks(text, at);
    if start >= text.len() {
        return Token::Over(start);
    }
    let byte = text[start];
    match byte {
        b'"' => quoted(text, start),
        b'@' => alias(text, start),
        b'-' => body_word(text, start),
        b'0'..=b'9' => number(text, start),
        _ => other(text, start, byte),
    }
}

// A word, an item name, a sign, or no token.
fn other(text: &[u8], start: usize, byte: u8) -> Token
    requires { Other text.now start byte }
    ensures { Reads text.now start result }
{
    if opens_word(byte) {
        return name(text, start);
    }
    if opens_sign(byte) {
        return Token::Sign(start, byte);
    }
    Token::Broken(start, start)
}

// The value of digits, up to 255, and their end.
#[derive(Clone, Copy)]
pub struct DigitRun {
    pub value: usize,
    pub end: usize,
}

// The number that begins right at an offset, and its end: the offset itself where none does, or where a 0 leads more digits.
pub fn number_here(text: &[u8], at: usize) -> DigitRun
    ensures { NumberHere text.now at result.value result.end }
{
    if text.len() <= at {
        return DigitRun { value: 0, end: at };
    }
    let run = digits(text, at);
    let value = run.value;
    let end = run.end;
    if text[at] == b'0' {
        if at + 1 < end {
            return DigitRun { value: 0, end: at };
        }
    }
    DigitRun { value, end }
}

// A byte of the text, and its offset.
#[derive(Clone, Copy)]
pub struct Head {
    pub offset: usize,
    pub byte: u8,
}

// The first byte at or after an offset that is no blank: 0 at the end of the text.
pub fn first_byte(text: &[u8], at: usize) -> Head
    ensures { Skipped text.now at result.offset × (result.byte ≡ get_or text.now result.offset 0) }
{
    let offset = skip_blanks(text, at);
    let byte = byte_at(text, offset);
    Head { offset, byte }
}

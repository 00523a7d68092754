// The words that open and close the body, byte for byte.
ghost use Rattle.std.specs.Prelude.{◌≡◌, ◌<◌, length, get_or, drop};
ghost use Rattle.hoa_text.specs.Basics.{begins};
ghost use Rattle.hoa_tokens.specs.Answers.{Reads};

use crate::Token;
use hoa_words::{ABORT, BODY, END};

pub fn body_word(text: &[u8], start: usize) -> Token
    requires { get_or text.now start 0 ≡ 45 }
    ensures { Reads text.now start result }
{
    if begins(text, start, &BODY) {
        return Token::Body(start);
    }
    if begins(text, start, &END) {
        return Token::End(start);
    }
    if begins(text, start, &ABORT) {
        return Token::Abort(start);
    }
    Token::Broken(start, start)
}

// Whether the word stands in the text at an offset.
fn begins(text: &[u8], at: usize, word: &[u8]) -> bool
    requires { at < length text.now }
    ensures { result ≡ begins word.now (drop at text.now) }
{
    text[at..].starts_with(word)
}

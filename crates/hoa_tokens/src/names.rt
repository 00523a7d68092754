// Words, item names and ANAMEs.
ghost use Rattle.std.specs.Prelude.{◌≡◌, true, get_or};
ghost use Rattle.hoa_text.specs.Tokens.{opens_word};
ghost use Rattle.hoa_tokens.specs.Answers.{Reads};

use crate::Token;
use crate::bytes::{byte_at, word_end};

pub fn name(text: &[u8], start: usize) -> Token
    requires { opens_word (get_or text.now start 0) ≡ true }
    ensures { Reads text.now start result }
{
    let end = word_end(text, start + 1);
    if byte_at(text, end) == b':' {
        Token::Item(start, end)
    } else {
        Token::Word(start, end)
    }
}

// An `@`, alone or with a word's bytes behind it.
pub fn alias(text: &[u8], start: usize) -> Token
    requires { get_or text.now start 0 ≡ 64 }
    ensures { Reads text.now start result }
{
    let end = word_end(text, start + 1);
    if end == start + 1 {
        Token::Broken(start, start)
    } else {
        Token::Unread(start, end)
    }
}

// Where the next token of a HOA text ends or is refused.
#![tactic(auto)]

ghost use Rattle.std.specs.Prelude.{◌≡◌};
ghost use Rattle.hoa_text.specs.Tokens.{left};
ghost use Rattle.hoa_text.specs.Grammar.{at};
ghost use Rattle.hoa_offsets.specs.Behind.{Behind};

use hoa_tokens::{Token, next_token};

// The offset behind a sign of one byte, where that sign stands first.
pub fn behind(text: &[u8], at: usize, sign: u8) -> Option<usize>
    ensures { Behind text.now at sign result }
{
    match next_token(text, at) {
        Token::Sign(offset, byte) => if byte == sign { Some(offset + 1) } else { None },
        _ => None,
    }
}

// The offset at which the first token, or the lack of one, is refused.
pub fn offset(text: &[u8], from: usize) -> usize
    ensures { result ≡ at (left text.now from) }
{
    match next_token(text, from) {
        Token::Word(offset, _) => offset,
        Token::Item(offset, _) => offset,
        Token::Number(offset, _, _) => offset,
        Token::Quoted(offset, _) => offset,
        Token::Sign(offset, _) => offset,
        Token::Body(offset) => offset,
        Token::End(offset) => offset,
        Token::Abort(offset) => offset,
        Token::Unread(offset, _) => offset,
        Token::Over(offset) => offset,
        Token::Broken(_, refused) => refused,
    }
}

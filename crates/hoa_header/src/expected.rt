// Tokens that may stand next: the offset behind one, where it stands first.
ghost use Rattle.std.specs.Prelude.{◌-◌, ◌<◌, length, take};
ghost use Rattle.hoa_text.specs.Header.{plain};
ghost use Rattle.hoa_acceptance.specs.Answers.{Past};
ghost use Rattle.hoa_header.specs.Expected.{is_item_of};

use hoa_tokens::{Token, next_token};
use hoa_words::names_item;

// An item name, whose own colon stands last.
pub fn behind_item(text: &[u8], at: usize, item: &[u8]) -> Option<usize>
    requires { 0 < length item.now }
    ensures { Past (is_item_of (take (length item.now - 1) item.now)) text.now at result }
{
    match next_token(text, at) {
        Token::Item(start, colon) => {
            if names_item(text, start, colon, item) {
                Some(colon + 1)
            } else {
                None
            }
        }
        _ => None,
    }
}

// A word, a number or a quoted text.
pub fn behind_plain(text: &[u8], at: usize) -> Option<usize>
    ensures { Past plain text.now at result }
{
    match next_token(text, at) {
        Token::Word(_, end) => Some(end),
        Token::Number(_, _, end) => Some(end),
        Token::Quoted(_, end) => Some(end + 1),
        _ => None,
    }
}

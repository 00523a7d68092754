// One name: its bytes, its length, and that it differs from the names before it.
ghost use Rattle.std.specs.Prelude.{◌≡◌, List, ℕ, ◌≤◌, length};
ghost use Rattle.automaton.specs.Value.{printable};
ghost use Rattle.hoa_text.specs.Header.{all_bytes, among};
ghost use Rattle.hoa_names.specs.Naming.{Short, Roomy, Slots, OneMore, Given, Added};

use crate::{Names, NamesRead};
use automaton::Automaton;
use automaton::names::printable;
use hoa_offsets::offset;
use hoa_tokens::{Token, next_token};
use hoa_words::spells;
use refusals::Refusal;

// The name at or after an offset, added to the names before it.
pub fn name(text: &[u8], at: usize, names: Names) -> Result<NamesRead, Refusal>
    requires { Roomy names }
    ensures { OneMore text.now at names result }
{
    match next_token(text, at) {
        Token::Quoted(start, end) => given(&text[start + 1..end], start, end + 1, names),
        _ => Err(Refusal::Form(offset(text, at))),
    }
}

// The name of these bytes, whose quote stands at `quote`; the text behind it begins at `next`.
fn given(word: &[u8], quote: usize, next: usize, names: Names) -> Result<NamesRead, Refusal>
    requires { Roomy names }
    ensures { Given word.now quote next names result }
{
    if !all_printable(word) {
        return Err(Refusal::Form(quote));
    }
    if word.is_empty() {
        return Err(Refusal::Size(quote));
    }
    if word.len() > Automaton::NAME {
        return Err(Refusal::Size(quote));
    }
    if among(word, &names.lengths, &names.bytes, names.count) {
        return Err(Refusal::Item(quote));
    }
    Ok(NamesRead {
        names: with_name(names, word),
        end: next,
    })
}

fn all_printable(word: &[u8]) -> bool
    ensures { result ≡ all_bytes printable word.now }
{
    word.iter().all(|byte| printable(*byte))
}

// Whether the word is one of the names.
fn among(
    word: &[u8],
    lengths: &[u8; Automaton::PROPOSITIONS],
    bytes: &[u8; Automaton::NAMES],
    count: usize,
) -> bool
    requires { (count ≤ 4) × Short lengths.now }
    ensures { (ws : List (List ℕ)) → length ws ≡ count → Slots ws lengths.now bytes.now → result ≡ among word.now ws }
{
    for i in 0..count {
        let from = i * Automaton::NAME;
        let end = from + usize::from(lengths[i]);
        if spells(bytes, from, end, word) {
            return true;
        }
    }
    false
}

fn with_name(names: Names, word: &[u8]) -> Names
    requires { Roomy names × (length word.now ≤ 16) }
    ensures { Added names word.now result }
{
    let mut more = names;
    let from = names.count * Automaton::NAME;
    more.count = names.count + 1;
    more.lengths[names.count] = word.len() as u8;
    more.bytes[from..from + word.len()].copy_from_slice(word);
    more
}

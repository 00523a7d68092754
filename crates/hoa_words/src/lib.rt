// The words of HOA text, byte for byte: the reader compares them, the writer copies them out.
#![tactic(auto)]

ghost use Rattle.std.specs.Prelude.{◌≡◌};
ghost use Rattle.hoa_text.specs.Basics.{same};
ghost use Rattle.hoa_words.specs.Parts.{spells, names_item};

// Item names, with their colons.
pub const HOA: [u8; 4] = *b"HOA:";

pub const STATES: [u8; 7] = *b"States:";

pub const START: [u8; 6] = *b"Start:";

pub const AP: [u8; 3] = *b"AP:";

pub const ACCEPTANCE: [u8; 11] = *b"Acceptance:";

pub const STATE: [u8; 6] = *b"State:";

// The version.
pub const VERSION: [u8; 2] = *b"v1";

// In conditions and labels.
pub const INF: [u8; 3] = *b"Inf";

pub const FIN: [u8; 3] = *b"Fin";

pub const TRUE: [u8; 1] = *b"t";

pub const FALSE: [u8; 1] = *b"f";

// What opens and closes the body, and what HOA has beside them.
pub const BODY: [u8; 8] = *b"--BODY--";

pub const END: [u8; 7] = *b"--END--";

pub const ABORT: [u8; 9] = *b"--ABORT--";

// Whether two texts are the same, byte for byte.
pub fn same(word: &[u8], other: &[u8]) -> bool
    ensures { result ≡ same word.now other.now }
{
    word == other
}

// Whether the text from `start` up to `end` is the word. A part that does not lie in the text spells nothing.
pub fn spells(text: &[u8], start: usize, end: usize, word: &[u8]) -> bool
    ensures { result ≡ spells text.now start end word.now }
{
    match text.get(start..end) {
        Some(part) => same(word, part),
        None => false,
    }
}

// Whether the text from `start` up to the colon at `end` is the item name, whose own colon stands last.
pub fn names_item(text: &[u8], start: usize, end: usize, item: &[u8]) -> bool
    ensures { result ≡ names_item text.now start end item.now }
{
    if item.len() == 0 {
        return false;
    }
    let size = item.len() - 1;
    spells(text, start, end, &item[0..size])
}

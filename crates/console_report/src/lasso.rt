// The two lines of a lasso word, its letters as numbers.
ghost use Rattle.std.specs.Prelude.{◌≡◌, ◌++◌, ◌+◌, ◌*◌, ◌≤◌, length, take};
ghost use Rattle.decimal.specs.Wrote.{Wrote};
ghost use Rattle.console_report.specs.Lines.{row, word_lines};
ghost use Rattle.console_report.specs.Spaced.{spaced};

use crate::parts::spaced;
use compare::{LOOP, PREFIX};
use pieces::{byte, word};

// Bytes of a lent buffer: for each letter a space and at most three digits, for each line its name and a line feed.
pub const WORD: usize = 4 * (PREFIX + LOOP) + 12;

// `prefix ..` and `loop ..`: the first letters of the two buffers, as many as the lengths say.
pub fn word_lines(
    prefix: &[u8; PREFIX],
    prefixed: usize,
    cycle: &[u8; LOOP],
    cycled: usize,
    out: &mut [u8; WORD],
) -> usize
    ensures { Wrote out.old 0 (word_lines (take prefixed prefix.now) (take cycled cycle.now)) out.new result }
{
    let at = letters_line(b"prefix", prefix, prefixed, out, 0);
    letters_line(b"loop", cycle, cycled, out, at)
}

fn letters_line(name: &[u8], letters: &[u8], count: usize, out: &mut [u8], at: usize) -> usize
    requires { at + length name.now + 4 * length letters.now + 1 ≤ length out.old }
    ensures is { Wrote out.old at (name.now ++ row (take count letters.now)) out.new result }
    ensures most { result ≤ at + length name.now + 4 * length letters.now + 1 }
{
    let mut next = word(name, out, at);
    next = numbers(letters, count, out, next);
    byte(b'\n', out, next)
}

// The first letters, each after a space. A letter has at most three digits.
fn numbers(letters: &[u8], count: usize, out: &mut [u8], at: usize) -> usize
    requires { at + 4 * length letters.now ≤ length out.old }
    ensures is { Wrote out.old at (spaced (take count letters.now)) out.new result }
    ensures most { result ≤ at + 4 * length letters.now }
{
    let mut next = at;
    let size = count.min(letters.len());
    for letter in &letters[..size] {
        next = spaced(u64::from(*letter), out, next);
    }
    next
}

// The header's lines and those of the body that have one word or one number. Each is written at the start of what is lent: the
// part of the buffer that begins after the bytes already written.
ghost use Rattle.std.specs.Prelude.{◌∷◌, ◌++◌, ◌+◌, ◌≤◌, ◌<◌, length};
ghost use Rattle.meaning.specs.Counting.{each};
ghost use Rattle.automaton.specs.Value.{Valid};
ghost use Rattle.decimal.specs.Wrote.{Wrote};
ghost use Rattle.hoa_text.specs.Written.{decimal, line, hoa_line, names_part, names_line, quoted_name, acceptance_line};

use crate::condition::condition;
use crate::parts::number;
use automaton::Automaton;
use pieces::{byte, word};

pub fn hoa_line(out: &mut [u8]) -> usize
    requires { length hoa_line ≤ length out.old }
    ensures { Wrote out.old 0 hoa_line out.new result }
{
    let mut at = word(&hoa_words::HOA, out, 0);
    at = byte(b' ', out, at);
    at = word(&hoa_words::VERSION, out, at);
    byte(b'\n', out, at)
}

// A line of one word.
pub fn word_line(bytes: &[u8], out: &mut [u8]) -> usize
    requires { length (line bytes.now) ≤ length out.old }
    ensures { Wrote out.old 0 (line bytes.now) out.new result }
{
    let at = word(bytes, out, 0);
    byte(b'\n', out, at)
}

// A line of an item's name and a number.
pub fn number_line(name: &[u8], n: usize, out: &mut [u8]) -> usize
    requires { (n < 100) × (length (line (name.now ++ (32 ∷ decimal n))) ≤ length out.old) }
    ensures { Wrote out.old 0 (line (name.now ++ (32 ∷ decimal n))) out.new result }
{
    let end = item(name, n, out);
    byte(b'\n', out, end)
}

// An item's name, a space and a number.
fn item(name: &[u8], n: usize, out: &mut [u8]) -> usize
    requires { (n < 100) × (length (name.now ++ (32 ∷ decimal n)) ≤ length out.old) }
    ensures { Wrote out.old 0 (name.now ++ (32 ∷ decimal n)) out.new result }
{
    let mut at = word(name, out, 0);
    at = byte(b' ', out, at);
    number(n, out, at)
}

// Left out where there are no propositions.
pub fn names_part(a: Automaton, out: &mut [u8]) -> usize
    requires { Valid a × (length (names_part a) ≤ length out.old) }
    ensures { Wrote out.old 0 (names_part a) out.new result }
{
    if a.propositions == 0 {
        return 0;
    }
    names_line(a, out)
}

fn names_line(a: Automaton, out: &mut [u8]) -> usize
    requires { Valid a × (length (names_line a) ≤ length out.old) }
    ensures { Wrote out.old 0 (names_line a) out.new result }
{
    let mut at = item(&hoa_words::AP, a.propositions, out);
    at = quoted_names(a, out, at);
    byte(b'\n', out, at)
}

fn quoted_names(a: Automaton, out: &mut [u8], at: usize) -> usize
    requires { Valid a × (at + length (each a.propositions (quoted_name a)) ≤ length out.old) }
    ensures { Wrote out.old at (each a.propositions (quoted_name a)) out.new result }
{
    let mut next = at;
    for i in 0..a.propositions {
        next = quoted_name(a, i, out, next);
    }
    next
}

fn quoted_name(a: Automaton, i: usize, out: &mut [u8], at: usize) -> usize
    requires { Valid a × (i < a.propositions) × (at + length (quoted_name a i) ≤ length out.old) }
    ensures { Wrote out.old at (quoted_name a i) out.new result }
{
    let from = i * Automaton::NAME;
    let to = from + usize::from(a.lengths[i]);
    let mut next = byte(b' ', out, at);
    next = byte(b'"', out, next);
    next = word(&a.names[from..to], out, next);
    byte(b'"', out, next)
}

pub fn acceptance_line(a: Automaton, out: &mut [u8]) -> usize
    requires { Valid a × (length (acceptance_line a) ≤ length out.old) }
    ensures { Wrote out.old 0 (acceptance_line a) out.new result }
{
    let mut at = item(&hoa_words::ACCEPTANCE, a.sets, out);
    at = byte(b' ', out, at);
    at = condition(a.acceptance, a.sets, out, at);
    byte(b'\n', out, at)
}

// The body's lines: a state's, and its edges', with label, destination and marks.
ghost use Rattle.std.specs.Prelude.{◌++◌, ◌+◌, ◌≤◌, ◌<◌, length};
ghost use Rattle.meaning.specs.Counting.{each};
ghost use Rattle.automaton.specs.Value.{Valid, letters};
ghost use Rattle.decimal.specs.Wrote.{Wrote};
ghost use Rattle.automaton.specs.Bytes.{bytes};
ghost use Rattle.hoa_text.specs.Written.{state_lines, edge_line, label_of, marks_of};
ghost use Rattle.hoa_write.specs.Pieces.{literal_piece, mark_piece};

use crate::lines;
use crate::parts::{byte_between, byte_if, number};
use automaton::Automaton;
use bits::powers::power_of_two;
use bits::sets::has;
use pieces::{byte, word};

// A state's line, and one for each letter, each into the unwritten rest.
pub fn state_lines(a: Automaton, q: usize, out: &mut [u8]) -> usize
    requires { Valid a × (q < a.states) × (length (state_lines a q) ≤ length out.old) }
    ensures { Wrote out.old 0 (state_lines a q) out.new result }
{
    let at = lines::number_line(&hoa_words::STATE, q, out);
    at + edge_lines(a, q, &mut out[at..])
}

fn edge_lines(a: Automaton, q: usize, out: &mut [u8]) -> usize
    requires { Valid a × (q < a.states) × (length (each (letters a) (edge_line a q)) ≤ length out.old) }
    ensures { Wrote out.old 0 (each (letters a) (edge_line a q)) out.new result }
{
    let count = power_of_two(a.propositions);
    let mut at: usize = 0;
    for l in 0..count {
        at += edge_line(a, q, l, &mut out[at..]);
    }
    at
}

fn edge_line(a: Automaton, q: usize, l: usize, out: &mut [u8]) -> usize
    requires { Valid a × (q < a.states) × (l < letters a) × (length (edge_line a q l) ≤ length out.old) }
    ensures { Wrote out.old 0 (edge_line a q l) out.new result }
{
    let cell = q * Automaton::LETTERS + l;
    let destination = usize::from(a.destinations[cell]);
    let marked = u16::from(a.marks[cell]);
    let mut at = bracketed(a.propositions, l as u16, out);
    at = number(destination, out, at);
    at = marks(a.sets, marked, out, at);
    byte(b'\n', out, at)
}

// The label in brackets, and a space.
fn bracketed(k: usize, l: u16, out: &mut [u8]) -> usize
    requires { (k ≤ 4) × (length (bytes "[" ++ (label_of k l ++ bytes "] ")) ≤ length out.old) }
    ensures { Wrote out.old 0 (bytes "[" ++ (label_of k l ++ bytes "] ")) out.new result }
{
    let mut at = byte(b'[', out, 0);
    at = label(k, l, out, at);
    at = byte(b']', out, at);
    byte(b' ', out, at)
}

fn label(k: usize, l: u16, out: &mut [u8], at: usize) -> usize
    requires { (k ≤ 4) × (at + length (label_of k l) ≤ length out.old) }
    ensures { Wrote out.old at (label_of k l) out.new result }
{
    if k == 0 {
        return word(&hoa_words::TRUE, out, at);
    }
    literals(k, l, out, at)
}

fn literals(k: usize, l: u16, out: &mut [u8], at: usize) -> usize
    requires { (k ≤ 4) × (at + length (each k (literal_piece l)) ≤ length out.old) }
    ensures { Wrote out.old at (each k (literal_piece l)) out.new result }
{
    let mut next = at;
    for i in 0..k {
        next = literal(l, i, out, next);
    }
    next
}

fn literal(l: u16, i: usize, out: &mut [u8], at: usize) -> usize
    requires { (i < 4) × (at + length (literal_piece l i) ≤ length out.old) }
    ensures { Wrote out.old at (literal_piece l i) out.new result }
{
    let mut next = byte_if(i > 0, b'&', out, at);
    let holds = has(l, i);
    next = byte_if(!holds, b'!', out, next);
    number(i, out, next)
}

// Nothing where there are no marks.
fn marks(sets: usize, m: u16, out: &mut [u8], at: usize) -> usize
    requires { (sets ≤ 4) × (at + length (marks_of sets m) ≤ length out.old) }
    ensures { Wrote out.old at (marks_of sets m) out.new result }
{
    if m == 0 {
        return at;
    }
    let mut next = byte(b' ', out, at);
    next = byte(b'{', out, next);
    next = members(sets, m, out, next);
    byte(b'}', out, next)
}

fn members(sets: usize, m: u16, out: &mut [u8], at: usize) -> usize
    requires { (sets ≤ 4) × (at + length (each sets (mark_piece m)) ≤ length out.old) }
    ensures { Wrote out.old at (each sets (mark_piece m)) out.new result }
{
    let mut next = at;
    for i in 0..sets {
        next = member(m, i, out, next);
    }
    next
}

fn member(m: u16, i: usize, out: &mut [u8], at: usize) -> usize
    requires { (i < 4) × (at + length (mark_piece m i) ≤ length out.old) }
    ensures { Wrote out.old at (mark_piece m i) out.new result }
{
    if !has(m, i) {
        return at;
    }
    let next = byte_between(m, i, b' ', out, at);
    number(i, out, next)
}

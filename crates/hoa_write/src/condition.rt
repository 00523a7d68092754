// The condition: Inf of all sets keeps its form, otherwise all-true is t, all_false is f, and every other acceptance is the sum of
// the sets of marks that it accepts, each a product that names every set.
ghost use Rattle.std.specs.Prelude.{cond, ◌+◌, ◌^◌, ◌≤◌, ◌<◌, length};
ghost use Rattle.meaning.specs.Counting.{each};
ghost use Rattle.automaton.specs.Bytes.{bytes};
ghost use Rattle.decimal.specs.Wrote.{Wrote};
ghost use Rattle.hoa_text.specs.Written.{condition_of, marks_text, condition_text};
ghost use Rattle.hoa_write.specs.Pieces.{summand_piece, factor_piece};

use crate::parts::{byte_between, byte_if, number};
use acceptance::{all_true, every_set};
use bits::powers::power_of_two;
use bits::sets::has;
use pieces::{byte, word};

// The mask decides, not the text that was read: without sets Inf of all is all-true too, and both are t.
pub fn condition(acceptance: u16, sets: usize, out: &mut [u8], at: usize) -> usize
    requires { (sets ≤ 4) × (at + length (condition_text sets acceptance) ≤ length out.old) }
    ensures { Wrote out.old at (condition_text sets acceptance) out.new result }
{
    if acceptance == every_set(sets) {
        return all_sets(sets, out, at);
    }
    if acceptance == all_true(sets) {
        return word(&hoa_words::TRUE, out, at);
    }
    if acceptance == 0 {
        return word(&hoa_words::FALSE, out, at);
    }
    sum(acceptance, sets, out, at)
}

// Inf of all sets.
fn all_sets(sets: usize, out: &mut [u8], at: usize) -> usize
    requires { (sets ≤ 4) × (at + length (condition_of sets) ≤ length out.old) }
    ensures { Wrote out.old at (condition_of sets) out.new result }
{
    if sets == 0 {
        return word(&hoa_words::TRUE, out, at);
    }
    let all = power_of_two(sets) - 1;
    product(all as u16, sets, out, at)
}

// The accepted sets of marks, ascending.
fn sum(acceptance: u16, sets: usize, out: &mut [u8], at: usize) -> usize
    requires { (sets ≤ 4) × (at + length (each (2 ^ sets) (summand_piece sets acceptance)) ≤ length out.old) }
    ensures { Wrote out.old at (each (2 ^ sets) (summand_piece sets acceptance)) out.new result }
{
    let count = power_of_two(sets);
    let mut next = at;
    for x in 0..count {
        next = summand(acceptance, x, sets, out, next);
    }
    next
}

fn summand(acceptance: u16, x: usize, sets: usize, out: &mut [u8], at: usize) -> usize
    requires { (sets ≤ 4) × (x < 16) × (at + length (summand_piece sets acceptance x) ≤ length out.old) }
    ensures { Wrote out.old at (summand_piece sets acceptance x) out.new result }
{
    if !has(acceptance, x) {
        return at;
    }
    let next = byte_between(acceptance, x, b'|', out, at);
    product(x as u16, sets, out, next)
}

// Every set, ascending, as the set of marks x has it or has it not.
fn product(x: u16, sets: usize, out: &mut [u8], at: usize) -> usize
    requires { (sets ≤ 4) × (at + length (marks_text sets x) ≤ length out.old) }
    ensures { Wrote out.old at (marks_text sets x) out.new result }
{
    let mut next = at;
    for i in 0..sets {
        next = factor(x, i, out, next);
    }
    next
}

fn factor(x: u16, i: usize, out: &mut [u8], at: usize) -> usize
    requires { (i < 4) × (at + length (factor_piece x i) ≤ length out.old) }
    ensures { Wrote out.old at (factor_piece x i) out.new result }
{
    let mut next = byte_if(i > 0, b'&', out, at);
    next = inf_or_fin(has(x, i), out, next);
    next = byte(b'(', out, next);
    next = number(i, out, next);
    byte(b')', out, next)
}

fn inf_or_fin(inf: bool, out: &mut [u8], at: usize) -> usize
    requires { at + length (cond inf (bytes "Inf") (bytes "Fin")) ≤ length out.old }
    ensures { Wrote out.old at (cond inf (bytes "Inf") (bytes "Fin")) out.new result }
{
    if inf {
        return word(&hoa_words::INF, out, at);
    }
    word(&hoa_words::FIN, out, at)
}

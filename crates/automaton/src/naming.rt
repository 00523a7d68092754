// The test of the proposition names.
ghost use Rattle.std.specs.Prelude.{◌≡◌, ◌<◌};
ghost use Rattle.automaton.specs.Tests.{named, lengths_fit, length_fits, bytes_fit, byte_fits, apart, clash, alike};
ghost use Rattle.automaton.specs.Names.{slot};

use crate::Automaton;
use crate::names::printable;

// Whether the first `count` names are of 1 to 16 bytes that HOA can give, no two alike, and all other slots are 0.
pub fn named(
    names: [u8; Automaton::NAMES],
    lengths: [u8; Automaton::PROPOSITIONS],
    count: usize,
) -> bool
    ensures { result ≡ named names lengths count }
{
    lengths_fit(&lengths, count) && bytes_fit(&names, &lengths) && apart(&names, count)
}

fn lengths_fit(lengths: &[u8; Automaton::PROPOSITIONS], count: usize) -> bool
    ensures { result ≡ lengths_fit lengths.now count }
{
    lengths
        .iter()
        .enumerate()
        .all(|(i, length)| length_fits(i, *length, count))
}

fn length_fits(i: usize, length: u8, count: usize) -> bool
    ensures { result ≡ length_fits count i length }
{
    if i < count {
        length != 0 && (length as usize) <= Automaton::NAME
    } else {
        length == 0
    }
}

fn bytes_fit(names: &[u8; Automaton::NAMES], lengths: &[u8; Automaton::PROPOSITIONS]) -> bool
    ensures { result ≡ bytes_fit names.now lengths.now }
{
    for (i, byte) in names.iter().enumerate() {
        if !byte_fits(i, *byte, lengths[i / Automaton::NAME]) {
            return false;
        }
    }
    true
}

// Byte i of all names, in a name of that length.
fn byte_fits(i: usize, byte: u8, length: u8) -> bool
    ensures { result ≡ byte_fits i byte length }
{
    if i % Automaton::NAME < length as usize {
        printable(byte)
    } else {
        byte == 0
    }
}

// Whether no two of the first `count` names are alike: all pairs i, j stand in a row, at i * 4 + j.
fn apart(names: &[u8; Automaton::NAMES], count: usize) -> bool
    ensures { result ≡ apart names.now count }
{
    for pair in 0..Automaton::PROPOSITIONS * Automaton::PROPOSITIONS {
        let first = pair / Automaton::PROPOSITIONS;
        let second = pair % Automaton::PROPOSITIONS;
        if clash(names, first, second, count) {
            return false;
        }
    }
    true
}

fn clash(names: &[u8; Automaton::NAMES], first: usize, second: usize, count: usize) -> bool
    requires { (first < 4) × (second < 4) }
    ensures { result ≡ clash names.now count first second }
{
    first < second && second < count && alike(names, first, second)
}

// Bytes past a name are 0 and no byte of a name is, so two names are alike if all their bytes are.
fn alike(names: &[u8; Automaton::NAMES], first: usize, second: usize) -> bool
    requires { (first < 4) × (second < 4) }
    ensures { result ≡ alike names.now first second }
{
    slot(names, first) == slot(names, second)
}

// The bytes of name i, with those behind it that are not in use.
fn slot(names: &[u8; Automaton::NAMES], i: usize) -> &[u8]
    requires { i < 4 }
    ensures { result.now ≡ slot names.now i 16 }
{
    &names[i * Automaton::NAME..][..Automaton::NAME]
}

// Solver text byte by byte: where in a line the next byte stands, and what is known of the text before it.
#![tactic(auto)]

ghost use Rattle.std.specs.Prelude.{◌≡◌};
ghost use Rattle.solver_scan.specs.Scanning.{scan_byte, scan_end, at_limit};

use ending::{end_place, judged};
use moves::{malformed, taken};
use places::{after_blank, after_line_feed};
use tokens::other_byte;
use words::spelt;

mod ending;
mod moves;
mod places;
mod tokens;
mod words;

// The place in a line.
#[derive(Clone, Copy)]
pub enum Place {
    // The first byte of a line.
    Start,
    // In a `c` line.
    Comment,
    // After the `s`: a blank is due.
    AfterS,
    // After a blank of an `s` line.
    BeforeWord,
    // After a letter of the verdict.
    Word,
    // After the verdict and a blank.
    AfterWord,
    // After the `v`, and after the 0: a blank or the line's end is due.
    AfterToken,
    // After a blank of a `v` line.
    BeforeToken,
    // After a minus.
    AfterMinus,
    // After a digit of a literal.
    Digits,
    // The text has ended.
    Ended,
    // Refused with 9, and with 10.
    BadForm,
    BadLiteral,
}

#[derive(Clone, Copy)]
pub enum Verdict {
    Unstated,
    Satisfiable,
    Unsatisfiable,
    Unknown,
}

// The wide fields stand first, so that the copies in the loop over a text's bytes have no gaps.
#[derive(Clone, Copy)]
pub struct Scan {
    // The offset of the next byte; of a refused text, the offset that is reported.
    pub at: u32,
    // The literal that is being read: its first byte, its number so far, and below whether it has a minus.
    pub from: u32,
    pub value: u32,
    pub place: Place,
    // The verdict, from its first letter on, and how many letters of it were read.
    pub verdict: Verdict,
    pub letters: u8,
    // Whether there was a `v` line, and whether the 0 came.
    pub listed: bool,
    pub closed: bool,
    pub minus: bool,
}

// One byte more. A blank or a line feed only changes the place; a literal that it ends is not judged here.
pub fn scan_byte(s: Scan, b: u8) -> Scan
    ensures { result ≡ scan_byte s b }
{
    if s.at == u32::MAX {
        return at_limit(s);
    }
    match b {
        b' ' => taken(s, after_blank(s.place, s.verdict, s.letters)),
        b'\t' => taken(s, after_blank(s.place, s.verdict, s.letters)),
        b'\n' => taken(s, after_line_feed(s.place, s.verdict, s.letters)),
        _ => other_byte(s, b),
    }
}

#[tactic(auto, unfolding(crate::specs::Scanning::at_limit, crate::specs::Scanning::refused_at))]
fn at_limit(s: Scan) -> Scan
    ensures { result ≡ at_limit s.place s }
{
    match s.place {
        Place::BadForm | Place::BadLiteral => s,
        _ => malformed(s),
    }
}

// The text ends here.
pub fn scan_end(s: Scan) -> Scan
    ensures { result ≡ scan_end s }
{
    let fine = judged(s.verdict, s.listed, s.closed);
    Scan {
        place: end_place(s.place, fine, spelt(s.verdict, s.letters)),
        ..s
    }
}

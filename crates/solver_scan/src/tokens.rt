// A byte that is neither a blank nor a line feed.
ghost use Rattle.std.specs.Prelude.{◌≡◌, ◌<◌};
ghost use Rattle.solver_scan.specs.Scanning.{start_byte, first_letter, next_letter, token_byte, first_byte, past_minus, digit_byte, grow};
ghost use Rattle.solver_scan.specs.Places.{other_byte};

use crate::moves::{begun, malformed, opened, shut, spelled, taken, valued};
use crate::words::{goes_on, turns, unstated};
use crate::{Place, Scan, Verdict};

#[tactic(auto, unfolding(crate::specs::Places::other_byte, crate::specs::Places::offset, crate::specs::Scanning::refused_at))]
pub fn other_byte(s: Scan, b: u8) -> Scan
    requires { s.at < 4294967295 }
    ensures { result ≡ other_byte s.place s b }
{
    match s.place {
        Place::Start => start_byte(s, b),
        Place::Comment => taken(s, Place::Comment),
        Place::BeforeWord => first_letter(s, b),
        Place::Word => next_letter(s, b),
        Place::BeforeToken => token_byte(s, b),
        Place::AfterMinus => after_minus(s, b),
        Place::Digits => digit(s, b),
        Place::BadForm | Place::BadLiteral => s,
        _ => malformed(s),
    }
}

#[tactic(auto, unfolding(crate::specs::Places::offset, crate::specs::Scanning::refused_at))]
fn start_byte(s: Scan, b: u8) -> Scan
    requires { s.at < 4294967295 }
    ensures { result ≡ start_byte s b }
{
    match b {
        b'c' => taken(s, Place::Comment),
        b's' => if unstated(s.verdict) {
            taken(s, Place::AfterS)
        } else {
            malformed(s)
        },
        b'v' => opened(s),
        _ => malformed(s),
    }
}

fn first_letter(s: Scan, b: u8) -> Scan
    requires { s.at < 4294967295 }
    ensures { result ≡ first_letter s b }
{
    match b {
        b'S' => spelled(s, Verdict::Satisfiable, 1),
        b'U' => spelled(s, Verdict::Unsatisfiable, 1),
        _ => malformed(s),
    }
}

#[tactic(auto, unfolding(crate::specs::Scanning::next_letter))]
fn next_letter(s: Scan, b: u8) -> Scan
    requires { s.at < 4294967295 }
    ensures { result ≡ next_letter s b }
{
    if goes_on(s.verdict, s.letters, b) {
        return spelled(s, s.verdict, s.letters + 1);
    }
    if turns(s.verdict, s.letters, b) {
        return spelled(s, Verdict::Unknown, 3);
    }
    malformed(s)
}

// Unless the 0 came before.
#[tactic(auto, unfolding(crate::specs::Scanning::token_byte))]
fn token_byte(s: Scan, b: u8) -> Scan
    requires { s.at < 4294967295 }
    ensures { result ≡ token_byte s b }
{
    if s.closed {
        return malformed(s);
    }
    first_byte(s, b)
}

#[tactic(auto, unfolding(crate::specs::Scanning::first_byte, crate::specs::SolverText::digit19))]
fn first_byte(s: Scan, b: u8) -> Scan
    requires { s.at < 4294967295 }
    ensures { result ≡ first_byte s b }
{
    match b {
        b'-' => begun(s, Place::AfterMinus, true, 0),
        b'0' => shut(s),
        b'1'..=b'9' => begun(s, Place::Digits, false, u32::from(b - b'0')),
        _ => malformed(s),
    }
}

#[tactic(auto, unfolding(crate::specs::Scanning::past_minus, crate::specs::SolverText::digit19))]
fn after_minus(s: Scan, b: u8) -> Scan
    requires { s.at < 4294967295 }
    ensures { result ≡ past_minus s b }
{
    match b {
        b'1'..=b'9' => valued(s, u32::from(b - b'0')),
        _ => malformed(s),
    }
}

#[tactic(auto, unfolding(crate::specs::SolverText::digit))]
fn digit(s: Scan, b: u8) -> Scan
    requires { s.at < 4294967295 }
    ensures { result ≡ digit_byte s b }
{
    match b {
        b'0'..=b'9' => valued(s, grown(s.value, u32::from(b - b'0'))),
        _ => malformed(s),
    }
}

// Numbers past 200,000,000 are past the last variable of any file, and are not told apart, so that a literal fits 32 bits.
#[tactic(auto, unfolding(crate::specs::Scanning::grow))]
fn grown(w: u32, d: u32) -> u32
    requires { d < 10 }
    ensures { result ≡ grow w d }
{
    if w <= 200000000 { w * 10 + d } else { w }
}

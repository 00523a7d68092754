// What a byte changes in the state of the scan.
ghost use Rattle.std.specs.Prelude.{◌≡◌, ◌<◌};
ghost use Rattle.solver_scan.specs.Scanning.{spell, list, close, begin, count, bad};
ghost use Rattle.solver_scan.specs.Places.{taken, offset};

use crate::{Place, Scan, Verdict};

// The next place is p: of a refused text, the offset stays.
pub fn taken(s: Scan, p: Place) -> Scan
    requires { s.at < 4294967295 }
    ensures { result ≡ taken s p }
{
    Scan {
        place: p,
        at: offset(p, s.at),
        ..s
    }
}

#[tactic(auto, unfolding(crate::specs::Places::offset, crate::specs::Scanning::refused_at))]
fn offset(p: Place, at: u32) -> u32
    requires { at < 4294967295 }
    ensures { result ≡ offset p at }
{
    match p {
        Place::BadForm | Place::BadLiteral => at,
        _ => at + 1,
    }
}

// The byte is the letter n of the verdict v.
pub fn spelled(s: Scan, v: Verdict, n: u8) -> Scan
    requires { s.at < 4294967295 }
    ensures { result ≡ spell s v n }
{
    Scan {
        place: Place::Word,
        at: s.at + 1,
        verdict: v,
        letters: n,
        ..s
    }
}

// The byte is the `v` of a `v` line.
pub fn opened(s: Scan) -> Scan
    requires { s.at < 4294967295 }
    ensures { result ≡ list s }
{
    Scan {
        place: Place::AfterToken,
        at: s.at + 1,
        listed: true,
        ..s
    }
}

// The byte is the 0.
pub fn shut(s: Scan) -> Scan
    requires { s.at < 4294967295 }
    ensures { result ≡ close s }
{
    Scan {
        place: Place::AfterToken,
        at: s.at + 1,
        closed: true,
        ..s
    }
}

// The byte is the first of a literal.
pub fn begun(s: Scan, p: Place, minus: bool, value: u32) -> Scan
    requires { s.at < 4294967295 }
    ensures { result ≡ begin s p minus value }
{
    Scan {
        place: p,
        at: s.at + 1,
        from: s.at,
        minus,
        value,
        ..s
    }
}

// The byte is a digit of a literal, which has the number `value` now.
pub fn valued(s: Scan, value: u32) -> Scan
    requires { s.at < 4294967295 }
    ensures { result ≡ count s value }
{
    Scan {
        place: Place::Digits,
        at: s.at + 1,
        value,
        ..s
    }
}

// 9, at this byte.
pub fn malformed(s: Scan) -> Scan
    ensures { result ≡ bad s }
{
    Scan {
        place: Place::BadForm,
        ..s
    }
}

// The bytes of a piece, and the end of the text: the scan, and the literals that end.
ghost use Rattle.std.specs.Prelude.{◌≡◌};
ghost use Rattle.solver_text.specs.Machine.{run, step, end, at_rest, ending, in_literal, ends_literal, unfitting};

use crate::Reader;
use solver_literals::give;
use solver_scan::{Place, Scan, scan_byte, scan_end};

// The bytes of a piece, one after another.
pub fn feed(s: Scan, piece: &[u8], named: &mut [u8; Reader::SLOTS], last: u32, kept: u32) -> Scan
    ensures { at_rest result named.new ≡ run last kept (at_rest s named.old) piece.now }
{
    let mut u = s;
    for b in piece {
        u = step(u, *b, named, last, kept);
    }
    u
}

fn step(s: Scan, b: u8, named: &mut [u8; Reader::SLOTS], last: u32, kept: u32) -> Scan
    ensures { at_rest result named.new ≡ step last kept s named.old b }
{
    let next = scan_byte(s, b);
    if ends_literal(s.place, next.place) {
        return end_literal(s, next, named, last, kept);
    }
    next
}

// What a text gives that ends here.
pub fn end(s: Scan, named: &mut [u8; Reader::SLOTS], last: u32, kept: u32) -> Scan
    ensures { at_rest result named.new ≡ end last kept (at_rest s named.old) }
{
    let ended = scan_end(s);
    if in_literal(s.place) {
        return end_literal(s, ended, named, last, kept);
    }
    ended
}

// Whether a literal ends where a scan goes from one place to another.
#[tactic(auto, unfolding(crate::specs::Machine::ends_literal, crate::specs::Machine::separated))]
fn ends_literal(before: Place, after: Place) -> bool
    ensures { result ≡ ends_literal before after }
{
    matches!(after, Place::Start | Place::BeforeToken) && in_literal(before)
}

#[tactic(auto, unfolding(crate::specs::Machine::in_literal))]
fn in_literal(place: Place) -> bool
    ensures { result ≡ in_literal place }
{
    matches!(place, Place::Digits)
}

// The literal that the scan has read ends here. If nothing speaks against it, the scan goes on as `next`.
fn end_literal(s: Scan, next: Scan, named: &mut [u8; Reader::SLOTS], last: u32, kept: u32) -> Scan
    ensures { at_rest result named.new ≡ ending last kept s next named.old }
{
    if give(s.minus, s.value, named, last, kept) {
        return next;
    }
    unfit(s)
}

// 10, at the first byte of the literal.
fn unfit(s: Scan) -> Scan
    ensures { result ≡ unfitting s }
{
    Scan {
        place: Place::BadLiteral,
        at: s.from,
        ..s
    }
}

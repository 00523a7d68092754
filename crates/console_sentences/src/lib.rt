// Why something was turned down, in words.
#![tactic(auto)]

ghost use Rattle.std.specs.Prelude.{◌≤◌, length};
ghost use Rattle.decimal.specs.Wrote.{Wrote, WroteIfRoom};
ghost use Rattle.console_sentences.specs.Sentences.{sentence, shown, filled};
ghost use Rattle.console_sentences.specs.Patterns.{most};

use console_places::Place;
use pieces::byte;
use refusals::{Code, Refusal};

mod say;

// Bytes of a lent buffer: more than any sentence has.
pub const SENTENCE: usize = 256;

// Writes the sentence of a refusal, with a line feed; where it has an offset, `place` is that of the offset.
pub fn sentence(x: Refusal, place: Place, out: &mut [u8; SENTENCE]) -> usize
    ensures { Wrote out.old 0 (sentence x place) out.new result }
{
    fill(say::pattern(x, place), x.code(), place, out)
}

// Writes a pattern, with numbers for its marks.
fn fill(pattern: &[u8], code: Code, place: Place, out: &mut [u8]) -> usize
    requires { most pattern.now ≤ length out.old }
    ensures { Wrote out.old 0 (filled code place pattern.now) out.new result }
{
    let mut at: usize = 0;
    for b in pattern {
        at = show(*b, code, place, out, at);
    }
    at
}

fn show(b: u8, code: Code, place: Place, out: &mut [u8], at: usize) -> usize
    ensures { WroteIfRoom out.old at (shown code place b) out.new result }
{
    match b {
        b'@' => decimal::write(place.line as u64, out, at),
        b'~' => decimal::write(place.column as u64, out, at),
        b'#' => decimal::write(code.first as u64, out, at),
        b'$' => decimal::write(code.second as u64, out, at),
        _ => byte(b, out, at),
    }
}

// Where the acceptances of two automata differ.
ghost use Rattle.std.specs.Prelude.{◌≡◌};
ghost use Rattle.meaning.specs.BitSet.{has};
ghost use Rattle.compare.specs.Verdicts.{unlike, Judged};

use bits::sets::has;
use compare_shortest::{HITS, MARKS};

// The table of the pairs of sets of marks that one acceptance says yes for and the other does not: that of the first times `MARKS`, and that of the second.
pub fn judge_all(first: u16, second: u16, hits: &mut [u8; HITS])
    ensures { Judged first second hits.new }
{
    for (m, hit) in hits.iter_mut().enumerate() {
        *hit = judge(accepts(first, m / MARKS), accepts(second, m % MARKS));
    }
}

// 1 where the two answers differ.
fn judge(first: bool, second: bool) -> u8
    ensures { result ≡ unlike first second }
{
    u8::from(first != second)
}

// Whether a run that meets just these sets infinitely often is accepting: the one place where acceptance is tested.
fn accepts(acceptance: u16, marks: usize) -> bool
    ensures { result ≡ has acceptance marks }
{
    has(acceptance, marks)
}

// The verdicts and their letters.
ghost use Rattle.std.specs.Prelude.{◌≡◌};
ghost use Rattle.solver_scan.specs.SolverText.{word, unstated};
ghost use Rattle.solver_scan.specs.Scanning.{spelt, follows, turns};

use crate::Verdict;

const SATISFIABLE: [u8; 11] = *b"SATISFIABLE";

const UNSATISFIABLE: [u8; 13] = *b"UNSATISFIABLE";

const UNKNOWN: [u8; 7] = *b"UNKNOWN";

// Whether there was no `s` line yet.
pub fn unstated(v: Verdict) -> bool
    ensures { result ≡ unstated v }
{
    matches!(v, Verdict::Unstated)
}

// Whether n letters are all that the verdict has.
#[tactic(auto, unfolding(crate::specs::Scanning::spelt))]
pub fn spelt(v: Verdict, n: u8) -> bool
    ensures { result ≡ spelt v n }
{
    match v {
        Verdict::Unstated => true,
        Verdict::Satisfiable => 11 <= n,
        Verdict::Unsatisfiable => 13 <= n,
        Verdict::Unknown => 7 <= n,
    }
}

// Whether the verdict goes on with b after n letters.
pub fn goes_on(v: Verdict, n: u8, b: u8) -> bool
    ensures { result ≡ follows (word v) n b }
{
    match v {
        Verdict::Unstated => false,
        Verdict::Satisfiable => follows(&SATISFIABLE, n, b),
        Verdict::Unsatisfiable => follows(&UNSATISFIABLE, n, b),
        Verdict::Unknown => follows(&UNKNOWN, n, b),
    }
}

fn follows(word: &[u8], n: u8, b: u8) -> bool
    ensures { result ≡ follows word.now n b }
{
    let i = usize::from(n);
    i < word.len() && word[i] == b
}

// Whether UN goes on as UNKNOWN.
#[tactic(auto, unfolding(crate::specs::Scanning::turns))]
pub fn turns(v: Verdict, n: u8, b: u8) -> bool
    ensures { result ≡ turns v n b }
{
    n == 2 && b == b'K' && matches!(v, Verdict::Unsatisfiable)
}

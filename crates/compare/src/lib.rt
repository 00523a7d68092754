// The comparison of two automata: the same, or the first lasso word that shows the difference.
#![tactic(auto)]

ghost use Rattle.std.specs.Prelude.{◌≡◌, length};
ghost use Rattle.compare.specs.Compared.{Compared};
ghost use Rattle.compare.specs.Searched.{Ready, Searched, answered};

use automaton::Automaton;
use bits::powers::power_of_two;
use compare_shortest::{HITS, Verdict};
use refusals::Refusal;

mod verdicts;

// Bytes of the two lent buffers: the documents' bounds of a word, for the largest automata.
pub const PREFIX: usize = Automaton::STATES * Automaton::STATES;

pub const LOOP: usize = (2 * Automaton::SETS + 1) * PREFIX;

// Whether two automata agree on every lasso word. Where they do not, the refusal is number 12, and the first word that shows it is
// written into `prefix` and `cycle`.
pub fn compare(
    first: Automaton,
    second: Automaton,
    prefix: &mut [u8],
    cycle: &mut [u8],
) -> Result<(), Refusal>
    ensures { Compared first second prefix.old prefix.new cycle.old cycle.new result }
{
    if prefix.len() < PREFIX {
        return Err(Refusal::Short(PREFIX, prefix.len()));
    }
    if cycle.len() < LOOP {
        return Err(Refusal::Short(LOOP, cycle.len()));
    }
    if !first.valid() {
        return Err(Refusal::Outside);
    }
    if !second.valid() {
        return Err(Refusal::Outside);
    }
    if first.propositions != second.propositions {
        return Err(Refusal::Propositions(first.propositions, second.propositions));
    }
    answer(difference(first, second, prefix, cycle))
}

// The search for the first word that shows a difference.
fn difference(first: Automaton, second: Automaton, prefix: &mut [u8], cycle: &mut [u8]) -> Verdict
    requires { Ready first second (length prefix.old) (length cycle.old) }
    ensures { Searched first second prefix.old prefix.new cycle.old cycle.new result }
{
    let mut hits = [0u8; HITS];
    verdicts::judge_all(first.acceptance, second.acceptance, &mut hits);
    compare_shortest::difference(
        &first.destinations,
        &first.marks,
        &second.destinations,
        &second.marks,
        &hits,
        first.start,
        second.start,
        power_of_two(first.propositions),
        prefix,
        cycle,
    )
}

// What was found, as an answer. Tables that are unfit would be those of a value outside "The automaton"; the values here are not.
fn answer(verdict: Verdict) -> Result<(), Refusal>
    ensures { result ≡ answered verdict }
{
    match verdict {
        Verdict::Same => Ok(()),
        Verdict::Differ(prefix, cycle) => Err(Refusal::Differ(prefix, cycle)),
        Verdict::Unfit => Err(Refusal::Outside),
    }
}

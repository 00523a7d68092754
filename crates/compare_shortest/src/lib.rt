// The shortest lasso word on which two automata, given by tables, differ.
#![tactic(auto)]

ghost use Rattle.std.specs.Prelude.{length};
ghost use Rattle.compare_shortest.specs.Difference.{Fit, Shows};
ghost use Rattle.compare_shortest.specs.Answer.{Within, Answer, Answered};

use automaton::Automaton;
use lasso::first_lasso;

mod choice;
mod closest;
mod lasso;
mod places;
mod product;
mod search;
mod word;

// Sets of marks of one automaton.
pub const MARKS: usize = 1 << Automaton::SETS;

// Entries of the table of hits: one for each two sets of marks.
pub const HITS: usize = MARKS * MARKS;

// Pairs of states.
const PAIRS: usize = Automaton::STATES * Automaton::STATES;

// Steps of the product: one for each pair of states and letter.
const STEPS: usize = PAIRS * Automaton::LETTERS;

// Nodes of the product: pairs of states, with two sets of marks each.
const NODES: usize = PAIRS * HITS;

// Nodes with one pair of states, as a number of the kind that nodes are.
const MARKED: u16 = HITS as u16;

// The root may be found again, and one place more is written that does not count.
const PLACES: usize = NODES + 2;

// What is found: no difference, or a word whose prefix and loop have these lengths; or the tables are not those of two automata.
#[derive(Clone, Copy)]
pub enum Verdict {
    Same,
    Differ(usize, usize),
    Unfit,
}

// The first word that shows a difference, of those that fit the buffers. A table has its entry for the state q and the letter l at
// `LETTERS` q + l; `hits` has an entry for each two sets of marks likewise, which is not 0 where one automaton accepts and the other
// does not. Tables that are not those of two automata are unfit. An automaton's two tables have one lifetime, so that they can be lent
// from one value.
pub fn difference<'a, 'b>(
    next_a: &'a [u8; Automaton::CELLS],
    marks_a: &'a [u8; Automaton::CELLS],
    next_b: &'b [u8; Automaton::CELLS],
    marks_b: &'b [u8; Automaton::CELLS],
    hits: &[u8; HITS],
    start_a: usize,
    start_b: usize,
    letters: usize,
    prefix: &mut [u8],
    cycle: &mut [u8],
) -> Verdict
    ensures { Answered (Fit next_a.now marks_a.now next_b.now marks_b.now letters start_a start_b)
        (Shows next_a.now marks_a.now next_b.now marks_b.now hits.now letters start_a start_b)
        prefix.old prefix.new cycle.old cycle.new result }
{
    if letters > Automaton::LETTERS {
        return Verdict::Unfit;
    }
    if !compare_tables::in_range(next_a, marks_a, start_a) {
        return Verdict::Unfit;
    }
    if !compare_tables::in_range(next_b, marks_b, start_b) {
        return Verdict::Unfit;
    }
    first_word(
        next_a, marks_a, next_b, marks_b, hits, start_a, start_b, letters, prefix, cycle,
    )
}

// The same, of tables that are those of two automata: the word is looked for in their product.
fn first_word(
    next_a: &[u8; Automaton::CELLS],
    marks_a: &[u8; Automaton::CELLS],
    next_b: &[u8; Automaton::CELLS],
    marks_b: &[u8; Automaton::CELLS],
    hits: &[u8; HITS],
    start_a: usize,
    start_b: usize,
    letters: usize,
    prefix: &mut [u8],
    cycle: &mut [u8],
) -> Verdict
    requires { Fit next_a.now marks_a.now next_b.now marks_b.now letters start_a start_b }
    ensures { Answer (Within (length prefix.old) (length cycle.old)
        (Shows next_a.now marks_a.now next_b.now marks_b.now hits.now letters start_a start_b))
        prefix.old prefix.new cycle.old cycle.new result }
{
    let mut plain = [0u16; STEPS];
    let mut table = [0u16; STEPS];
    let mut seen = [0u8; NODES];
    let mut outer = [0u64; PLACES];
    let mut inner = [0u64; PLACES];
    product::fill(next_a, marks_a, next_b, marks_b, &mut plain, &mut table);
    let root = ((start_a * Automaton::STATES + start_b) * HITS) as u16;
    first_lasso(
        &plain, &table, hits, &mut seen, &mut outer, &mut inner, letters, root, prefix, cycle,
    )
}

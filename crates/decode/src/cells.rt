// The table that is decoded, entry by entry.
ghost use Rattle.std.specs.Prelude.{◌≡◌, MatchOption, ◌≤◌, ◌<◌, eqb, get_or};
ghost use Rattle.meaning.specs.BitSet.{set_of};
ghost use Rattle.encoding.specs.Variables.{step, mark};
ghost use Rattle.clause_sizes.specs.Sizes.{Fitting};
ghost use Rattle.clause_sizes.specs.Numbers.{InFile, number_of};
ghost use Rattle.decode.specs.Cells.{table_by, CellOf, NoCell, FilledTo};

use automaton::Automaton;
use automaton::states::CandidateState;
use clause_sizes::Sizes;
use clause_variables::{mark_variable, step_variable};
use solver_text::Reader;

// The transition of a state and a letter, or zeros where one of them is not in use.
#[derive(Clone, Copy)]
pub struct Cell {
    pub destination: u8,
    pub marks: u8,
}

// Writes the destinations and the marks, up to the first state and letter without a true step: its place is returned.
pub fn fill(
    z: Sizes,
    named: &[u8; Reader::SLOTS],
    destinations: &mut [u8; Automaton::CELLS],
    marks: &mut [u8; Automaton::CELLS],
) -> Option<usize>
    requires { Fitting z }
    ensures { FilledTo (table_by z named.now) destinations.new marks.new result }
{
    for i in 0..Automaton::CELLS {
        let Some(cell) = cell_at(z, named, i) else {
            return Some(i);
        };
        destinations[i] = cell.destination;
        marks[i] = cell.marks;
    }
    None
}

// What stands at the place i, which is that of the state i / LETTERS and the letter i % LETTERS; none where no step is true.
fn cell_at(z: Sizes, named: &[u8; Reader::SLOTS], i: usize) -> Option<Cell>
    requires { Fitting z }
    ensures { MatchOption result (NoCell (table_by z named.now) i) (CellOf (table_by z named.now) i) }
{
    let q = CandidateState(i / Automaton::LETTERS);
    let l = i % Automaton::LETTERS;
    if q.0 >= z.candidate.states || l >= z.letters {
        return Some(Cell {
            destination: 0,
            marks: 0,
        });
    }
    let p = lowest_step(z, named, q, l)?;
    let marks = marks_with(z, named, q, l, p);
    Some(Cell {
        destination: p.0 as u8,
        marks,
    })
}

// The lowest p whose step is true.
fn lowest_step(
    z: Sizes,
    named: &[u8; Reader::SLOTS],
    q: CandidateState,
    l: usize,
) -> Option<CandidateState>
    requires { Fitting z × (q.0 < z.candidate.states) × (l < z.letters) }
    ensures { MatchOption result (z.candidate.states ≤ (table_by z named.now).step q.0 l)
        (λ p. (p.0 < z.candidate.states) × (p.0 ≡ (table_by z named.now).step q.0 l)) }
{
    for p in 0..z.candidate.states {
        let p = CandidateState(p);
        if steps(z, named, q, l, p) {
            return Some(p);
        }
    }
    None
}

// Whether the step is true.
fn steps(
    z: Sizes,
    named: &[u8; Reader::SLOTS],
    q: CandidateState,
    l: usize,
    p: CandidateState,
) -> bool
    requires fitting { Fitting z }
    requires in_file { InFile z (step q.0 l p.0) }
    ensures { result ≡ eqb (get_or named.now (number_of z (step q.0 l p.0)) 0) 1 }
{
    named[step_variable(z, q, l, p)] == 1
}

// The marks of the step to p, as a number: bit i for the set i.
fn marks_with(
    z: Sizes,
    named: &[u8; Reader::SLOTS],
    q: CandidateState,
    l: usize,
    p: CandidateState,
) -> u8
    requires { Fitting z × (q.0 < z.candidate.states) × (l < z.letters) × (p.0 < z.candidate.states) }
    ensures { result ≡ set_of z.candidate.sets (λ i. eqb (get_or named.now (number_of z (mark q.0 l i p.0)) 0) 1) }
{
    let mut marks: u8 = 0;
    for i in (0..z.candidate.sets).rev() {
        marks = marks * 2 + u8::from(marked(z, named, q, l, i, p));
    }
    marks
}

// Whether the step bears the mark i.
fn marked(
    z: Sizes,
    named: &[u8; Reader::SLOTS],
    q: CandidateState,
    l: usize,
    i: usize,
    p: CandidateState,
) -> bool
    requires fitting { Fitting z }
    requires in_file { InFile z (mark q.0 l i p.0) }
    ensures { result ≡ eqb (get_or named.now (number_of z (mark q.0 l i p.0)) 0) 1 }
{
    named[mark_variable(z, q, l, i, p)] == 1
}

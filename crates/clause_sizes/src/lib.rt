// What is named for a clause file, and its sizes, as the other functions carry them.
#![tactic(auto)]

ghost use Rattle.std.specs.Prelude.{◌≡◌, ◌↔◌, true, ◌≤◌};
ghost use Rattle.automaton.specs.Value.{Valid};
ghost use Rattle.clause_sizes.specs.Targets.{Dimensioned, every, listed};
ghost use Rattle.clause_sizes.specs.Sizes.{Counting, Fitting, Sizing, kept_sets, measured};
ghost use Rattle.clause_sizes.specs.Numbers.{LastIfAny};

use acceptance::{every_set, own_sets};
use automaton::Automaton;
use bits::powers::power_of_two;
use clause_rows::{Rows, everywhere, rows_with};
use reach::components;
use refusals::Refusal;

// Which of the two clause lists: the first has path variables between any two reference states, the second only inside the
// reference's strongly connected components.
#[derive(Clone, Copy)]
pub enum Listing {
    First,
    Second,
}

// What the caller names for a file, beside the reference: the candidate's states n, its acceptance sets m, its acceptance as a
// mask, bit M for the set of marks M, and which list.
#[derive(Clone, Copy)]
pub struct Target {
    pub states: usize,
    pub sets: usize,
    pub acceptance: u16,
    pub listing: Listing,
}

impl Target {
    // With Inf of all sets, and the first list.
    pub fn every(states: usize, sets: usize) -> Target
        ensures { result ≡ every states sets }
    {
        Target {
            states,
            sets,
            acceptance: every_set(sets),
            listing: Listing::First,
        }
    }

    // The same, with the named list.
    pub fn listed(self, listing: Listing) -> Target
        ensures { result ≡ listed self listing }
    {
        Target { listing, ..self }
    }
}

// Of the candidate or of the reference: its states, its acceptance sets, how many sets of marks there are, and its acceptance.
#[derive(Clone, Copy)]
pub struct Counts {
    pub states: usize,
    pub sets: usize,
    pub subsets: usize,
    pub acceptance: u16,
}

// `steps` is the number of the last step variable, `marks` that of the last mark variable; `paths` tells between which reference
// states the list has path variables.
#[derive(Clone, Copy)]
pub struct Sizes {
    pub candidate: Counts,
    pub reference: Counts,
    pub letters: usize,
    pub steps: usize,
    pub marks: usize,
    pub listing: Listing,
    pub paths: Rows,
}

// Of a file: V, the number of its last variable, and its sizes.
#[derive(Clone, Copy)]
pub struct Measurement {
    pub last: usize,
    pub sizes: Sizes,
}

// The sizes of the file for a reference and a target, where there is one.
pub fn measure(reference: Automaton, target: Target) -> Result<Measurement, Refusal>
    ensures { Sizing reference target result }
{
    if !reference.valid() {
        return Err(Refusal::Outside);
    }
    if !dimensioned(target) {
        return Err(Refusal::Dimensions(target.states, target.sets));
    }
    if !own_sets(target.acceptance, target.sets) {
        return Err(Refusal::Outside);
    }
    let listing = target.listing;
    let paths = rows_with(kept_sets(reference, listing));
    let sizes = measured(
        target,
        reference.states,
        reference.sets,
        reference.acceptance,
        reference.propositions,
        paths,
    );
    Ok(Measurement {
        last: last_variable(sizes),
        sizes,
    })
}

// For each reference state the set of those that it has path variables to.
fn kept_sets(reference: Automaton, listing: Listing) -> [u16; Automaton::STATES]
    requires { Valid reference }
    ensures { result ≡ kept_sets reference listing }
{
    match listing {
        Listing::First => everywhere(reference.states),
        Listing::Second => components(reference),
    }
}

fn dimensioned(target: Target) -> bool
    ensures { (result ≡ true) ↔ Dimensioned target }
{
    if target.states < 1 {
        return false;
    }
    if target.states > Automaton::CANDIDATE_STATES {
        return false;
    }
    target.sets <= Automaton::SETS
}

fn measured(
    target: Target,
    states: usize,
    sets: usize,
    acceptance: u16,
    propositions: usize,
    paths: Rows,
) -> Sizes
    requires { Dimensioned target × (sets ≤ 4) × (propositions ≤ 4) }
    ensures { result ≡ measured target states sets acceptance propositions paths }
{
    let n = target.states;
    let m = target.sets;
    let listing = target.listing;
    let letters = power_of_two(propositions);
    let steps = n * n * letters;
    Sizes {
        candidate: Counts {
            states: n,
            sets: m,
            subsets: power_of_two(m),
            acceptance: target.acceptance,
        },
        reference: Counts {
            states,
            sets,
            subsets: power_of_two(sets),
            acceptance,
        },
        letters,
        steps,
        marks: steps + steps * m,
        listing,
        paths,
    }
}

// V: the steps, the marks and the paths; or 0 where no file has these sizes.
pub fn last_variable(z: Sizes) -> usize
    ensures { LastIfAny z result }
{
    if !fitting(z) {
        return 0;
    }
    let n = z.candidate.states;
    let paths = z.paths;
    z.marks + n * n * paths.pairs * (z.candidate.subsets * z.reference.subsets)
}

// Whether a file can have these sizes.
pub fn fitting(z: Sizes) -> bool
    ensures { (result ≡ true) ↔ Fitting z }
{
    let candidate = z.candidate;
    if !counting(candidate, Automaton::CANDIDATE_STATES) {
        return false;
    }
    let reference = z.reference;
    if !counting(reference, Automaton::STATES) {
        return false;
    }
    if !((1 <= z.letters) & (z.letters <= Automaton::LETTERS)) {
        return false;
    }
    let paths = z.paths;
    if paths.pairs > Automaton::STATES * Automaton::STATES {
        return false;
    }
    let steps = candidate.states * candidate.states * z.letters;
    (z.steps == steps) & (z.marks == steps + steps * candidate.sets)
}

fn counting(c: Counts, most: usize) -> bool
    ensures { (result ≡ true) ↔ Counting most c }
{
    (1 <= c.states)
        & (c.states <= most)
        & (c.sets <= Automaton::SETS)
        & (c.subsets == power_of_two(c.sets))
}

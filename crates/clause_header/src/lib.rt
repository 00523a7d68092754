// The numbers of the header: V variables and C clauses, counted and not listed.
#![tactic(auto)]

ghost use Rattle.std.specs.Prelude.{◌≡◌, ◌*◌, ◌≤◌, ◌<◌, length};
ghost use Rattle.meaning.specs.BitSet.{bit, has};
ghost use Rattle.clause_sizes.specs.Targets.{file};
ghost use Rattle.clause_sizes.specs.Sizes.{Fitting, target_of};
ghost use Rattle.clause_sizes.specs.Measured.{Measured};
ghost use Rattle.clause_list.specs.Tables.{StepsWithin};
ghost use Rattle.clause_header.specs.Header.{Headed};
ghost use Rattle.clause_header.specs.SharingCount.{shares_by, sharing_count};
ghost use Rattle.clause_header.specs.ClosureCount.{yes_pairs, pairs_for, closures_by, closures_from, closure_count};

use automaton::Automaton;
use automaton::states::ReferenceState;
use bits::sets::has;
use clause_indices::entry;
use clause_indices::extent::extent_of;
use clause_sizes::{Sizes, Target, measure};
use clause_variables::kept;
use refusals::Refusal;

// The numbers of a header: V variables and C clauses.
#[derive(Clone, Copy)]
pub struct Totals {
    pub variables: u64,
    pub clauses: u64,
}

// "p cnf V C": both numbers of the file for the reference and the target.
pub fn header(reference: Automaton, target: Target) -> Result<Totals, Refusal>
    ensures { Headed reference target result }
{
    let measured = measure(reference, target)?;
    let clauses = clauses_of(reference, measured.sizes);
    Ok(Totals {
        variables: measured.last as u64,
        clauses: clauses as u64,
    })
}

// C: groups 1 and 2 have a clause at each of their positions, groups 3 and 4 only where the list has the paths of the clause.
fn clauses_of(reference: Automaton, z: Sizes) -> usize
    requires { Measured reference z }
    ensures { result ≡ length (file reference (target_of z)) }
{
    let destinations = reference.destinations;
    let marks = reference.marks;
    let g = extent_of(z);
    let n = z.candidate.states;
    let own = z.candidate.subsets;
    let markings = own * z.reference.subsets * own;
    let third = n * n * n * markings * sharing(z, &destinations);
    let fourth = n * n * closure_count(z, &destinations, &marks);
    g.first + g.second + third + fourth
}

// The length of group 3 for each q, p, t, I, J and K: how many u, v and l there are for which u has paths to v and to the step from
// v by l. All triples stand in a row, l fastest.
fn sharing(z: Sizes, destinations: &[u8; Automaton::CELLS]) -> usize
    requires { Fitting z }
    ensures { (result ≡ sharing_count z destinations.now) × (result ≤ 4096) }
{
    let states = z.reference.states;
    let all = states * states * z.letters;
    let mut count: usize = 0;
    for y in 0..all {
        let x = y / z.letters;
        let u = ReferenceState(x / states);
        let v = ReferenceState(x % states);
        count += shares(z, destinations, u, v, y % z.letters);
    }
    count
}

// 1 where u has paths to v and to the step from v by l.
fn shares(
    z: Sizes,
    destinations: &[u8; Automaton::CELLS],
    u: ReferenceState,
    v: ReferenceState,
    l: usize,
) -> usize
    requires { (u.0 < 16) × (v.0 < 16) × (l < 16) }
    ensures { (result ≡ shares_by z destinations.now u.0 v.0 l) × (result ≤ 1) }
{
    let w = ReferenceState(entry(destinations, v, l));
    usize::from(kept(z, u, v) & kept(z, u, w))
}

// The length of group 4 for each q and p, summed over the reference's transitions.
fn closure_count(
    z: Sizes,
    destinations: &[u8; Automaton::CELLS],
    marks: &[u8; Automaton::CELLS],
) -> usize
    requires { Fitting z × StepsWithin z destinations.now }
    ensures { (result ≡ closure_count z destinations.now marks.now) × (result ≤ 1048576) }
{
    let transitions = z.reference.states * z.letters;
    let accepted = yes_pairs(z);
    let mut count: usize = 0;
    for y in 0..transitions {
        let v = ReferenceState(y / z.letters);
        let l = y % z.letters;
        let w = ReferenceState(entry(destinations, v, l));
        count += closures_from(z, accepted, v, w, entry(marks, v, l));
    }
    count
}

// For one transition from v to w with the marks f: none where w has no paths to v.
fn closures_from(z: Sizes, accepted: usize, v: ReferenceState, w: ReferenceState, f: usize) -> usize
    requires { Fitting z × (accepted ≤ z.candidate.subsets * z.candidate.subsets) × (w.0 < 16) }
    ensures { (result ≡ closures_from z accepted v.0 w.0 f) × (result ≤ 4096) }
{
    if !kept(z, w, v) {
        return 0;
    }
    closures_by(z, accepted, f)
}

// For the marks f of a transition, summed over J. `accepted` is the number of pairs I, K that the candidate's acceptance says yes for.
fn closures_by(z: Sizes, accepted: usize, f: usize) -> usize
    requires { Fitting z × (accepted ≤ z.candidate.subsets * z.candidate.subsets) }
    ensures { (result ≡ closures_by z accepted f) × (result ≤ 4096) }
{
    let mut count: usize = 0;
    for j in 0..z.reference.subsets {
        count += pairs_for(z, accepted, j | f);
    }
    count
}

// How many pairs I, K there are for which the two acceptances disagree on I∪K and J∪F, where J∪F is the union: where the reference's
// says yes for it, those that the candidate's says no for, and else the others.
fn pairs_for(z: Sizes, accepted: usize, union: usize) -> usize
    requires { Fitting z × (accepted ≤ z.candidate.subsets * z.candidate.subsets) }
    ensures { (result ≡ pairs_for z accepted union) × (result ≤ 256) }
{
    if has(z.reference.acceptance, union) {
        return z.candidate.subsets * z.candidate.subsets - accepted;
    }
    accepted
}

// How many pairs I, K have a union that the candidate's acceptance says yes for: all pairs stand in a row, at I * subsets + K.
fn yes_pairs(z: Sizes) -> usize
    requires { Fitting z }
    ensures { (result ≡ yes_pairs z) × (result ≤ z.candidate.subsets * z.candidate.subsets) }
{
    let own = z.candidate.subsets;
    let mut count: usize = 0;
    for x in 0..own * own {
        count += usize::from(has(z.candidate.acceptance, x / own | x % own));
    }
    count
}

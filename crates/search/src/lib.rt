// The search for fewer states: how it starts, and what it makes of each answer to its question.
#![tactic(auto)]

ghost use Rattle.std.specs.Prelude.{◌≡◌, ◌↔◌, true};
ghost use Rattle.search_rule.specs.Rule.{none, unknown};
ghost use Rattle.search.specs.Replies.{InRange, next, Started, Told, AskedFor, Found};

use acceptance::every_set;
use automaton::Automaton;
use compare::{LOOP, PREFIX, compare};
use refusals::Refusal;
use search_rule::Search;

// What is replied where nothing is turned down.
#[derive(Clone, Copy)]
pub enum Reply {
    // The search for the next call.
    Taken(Search),
    // The search was finished before.
    Finished,
}

// The search for the next call. It is the caller's own where the call was refused, and where the search was finished before.
pub fn next(search: Search, reply: Result<Reply, Refusal>) -> Search
    ensures { result ≡ next search reply }
{
    match reply {
        Ok(Reply::Taken(taken)) => taken,
        Ok(Reply::Finished) | Err(_) => search,
    }
}

// A search with its first question.
pub fn start(reference: Automaton) -> Result<Search, Refusal>
    ensures { Started reference result }
{
    if reference.valid() {
        Ok(search_rule::fresh(reference))
    } else {
        Err(Refusal::Outside)
    }
}

// What the question is answered: a table. Where it differs from the reference, the first word that shows it is written into `prefix` and `cycle`.
#[tactic(auto, using(crate::proofs::Laws::found_judged))]
pub fn found(
    search: Search,
    table: Automaton,
    prefix: &mut [u8],
    cycle: &mut [u8],
) -> Result<Reply, Refusal>
    ensures { Found search table prefix.old prefix.new cycle.old cycle.new result }
{
    if prefix.len() < PREFIX {
        return Err(Refusal::Short(PREFIX, prefix.len()));
    }
    if cycle.len() < LOOP {
        return Err(Refusal::Short(LOOP, cycle.len()));
    }
    if !in_range(search) {
        return Err(Refusal::Outside);
    }
    if !table.valid() {
        return Err(Refusal::Outside);
    }
    if search.finished {
        return Ok(Reply::Finished);
    }
    if !asked_for(search, table) {
        return Err(Refusal::Dimensions(table.states, table.sets));
    }
    if table.acceptance != every_set(table.sets) {
        return Err(Refusal::OtherAcceptance);
    }
    compare(table, search.reference, prefix, cycle)?;
    Ok(Reply::Taken(search_rule::found(search, table)))
}

// There is no such table.
pub fn none(search: Search) -> Result<Reply, Refusal>
    ensures { Told search (none search) result }
{
    told(search, search_rule::none(search))
}

// The solver did not say.
pub fn unknown(search: Search) -> Result<Reply, Refusal>
    ensures { Told search (unknown search) result }
{
    told(search, search_rule::finish(search, true))
}

// 4, "finished", or the next state.
fn told(from: Search, next: Search) -> Result<Reply, Refusal>
    ensures { Told from next result }
{
    if !in_range(from) {
        return Err(Refusal::Outside);
    }
    if from.finished {
        return Ok(Reply::Finished);
    }
    Ok(Reply::Taken(next))
}

fn in_range(search: Search) -> bool
    ensures { (result ≡ true) ↔ InRange search }
{
    search.n <= Automaton::CANDIDATE_STATES
        && search.m <= Automaton::SETS
        && search.reference.valid()
        && search.best.valid()
}

fn asked_for(search: Search, table: Automaton) -> bool
    ensures { (result ≡ true) ↔ AskedFor search table }
{
    table.states == search.n && table.sets == search.m
}

// The search's rule: from one state of the search to the next.
#![tactic(auto)]

ghost use Rattle.std.specs.Prelude.{◌≡◌, ◌<◌};
ghost use Rattle.search_rule.specs.Rule.{below, fresh, found, none, risen, ended};

use automaton::Automaton;

// It asks for an automaton of `n` states and `m` acceptance sets that agrees with the reference; document 01 calls it a table.
#[derive(Clone, Copy)]
pub struct Search {
    pub reference: Automaton,
    pub best: Automaton,
    pub n: usize,
    pub m: usize,
    pub finished: bool,
    // It finished without an answer to its last question.
    pub open: bool,
}

pub fn fresh(reference: Automaton) -> Search
    ensures { result ≡ fresh reference }
{
    Search {
        reference,
        best: reference,
        n: below(reference.states),
        m: reference.sets,
        finished: reference.states == 1,
        open: false,
    }
}

pub fn found(search: Search, table: Automaton) -> Search
    ensures { result ≡ found table search }
{
    let n = search.n.saturating_sub(1);
    Search {
        best: table,
        n,
        finished: n == 0,
        ..search
    }
}

pub fn none(search: Search) -> Search
    ensures { result ≡ none search }
{
    if search.m < Automaton::SETS {
        return rise(search);
    }
    finish(search, search.open)
}

pub fn finish(search: Search, marked: bool) -> Search
    ensures { result ≡ ended marked search }
{
    Search {
        finished: true,
        open: marked,
        ..search
    }
}

fn rise(search: Search) -> Search
    requires { search.m < 4 }
    ensures { result ≡ risen search }
{
    let n = below(search.best.states);
    Search {
        n,
        m: search.m + 1,
        finished: n == 0,
        ..search
    }
}

// One state fewer, as far as candidates go.
fn below(states: usize) -> usize
    ensures { result ≡ below states }
{
    states.saturating_sub(1).min(Automaton::CANDIDATE_STATES)
}

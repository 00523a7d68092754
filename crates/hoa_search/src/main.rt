// Replays solver answers to the search for fewer states, and prints the next question, or the best table once it is finished.
#![tactic(auto)]

ghost use Rattle.std.specs.Prelude.{◌≡◌, cond, is_ok, Some, None};
ghost use Rattle.search.specs.Replies.{next};

use automaton::Automaton;
use clause_sizes::Target;
use compare::{LOOP, PREFIX};
use console_answers::Told;
use console_input::{TEXT, from_argument};
use console_lines::{print_line, refuse};
use console_places::Place;
use console_places::part::first;
use console_print::{print, usage};
use console_read::{PATH, argument, argument_count, open, read_some};
use console_report::lines::{LINE, ask};
use console_results::print_automaton;
use decode::Decoded;
use refusals::Refusal;
use search::Reply;
use search_rule::Search;
use std::fs::File;

fn main(rt: HostRuntime) {
    let rt = &rt;
    if argument_count(rt) < 2 {
        usage(rt, b"hoa_search REFERENCE [ANSWER-FILE ..]");
        return;
    }
    let mut text = [0u8; TEXT];
    let Some(reference) = from_argument(rt, 1, &mut text).given else {
        return;
    };
    match search::start(reference) {
        Ok(start) => {
            if let Some(search) = replay(rt, start) {
                print_search(rt, search);
            }
        }
        Err(x) => {
            refuse(rt, x, b"hoa_search", Place::first());
        }
    }
}

// The search after the answers so far. Where one of them is not taken, here and below, there is none, and standard error has the reason.
fn replay(rt: &HostRuntime, start: Search) -> Option<Search> {
    let mut search = start;
    for i in 2..argument_count(rt) {
        search = take_argument(rt, search, i)?;
    }
    Some(search)
}

fn take_argument(rt: &HostRuntime, search: Search, i: usize) -> Option<Search> {
    let mut path = [0u8; PATH];
    let length = argument(rt, i, &mut path)?;
    let path = first(&path, length);
    let mut file = open(rt, path)?;
    take_text(rt, search, &mut file, path)
}

// A finished search no longer looks at an answer.
fn take_text(rt: &HostRuntime, search: Search, file: &mut File, path: &[u8]) -> Option<Search> {
    if search.finished {
        let mut piece = [0u8; PATH];
        read_some(rt, file, path, &mut piece)?;
        return Some(search);
    }
    let mut prefix = [0u8; PREFIX];
    let mut cycle = [0u8; LOOP];
    let reference = search.reference;
    let target = Target::every(search.n, search.m);
    let told = console_answers::read(
        rt,
        file,
        path,
        reference,
        target,
        &mut prefix,
        &mut cycle,
    ).ok()?;
    answer(rt, search, told, path)
}

fn answer(rt: &HostRuntime, search: Search, told: Told, path: &[u8]) -> Option<Search> {
    let place = told.place;
    match told.decoded {
        Ok(Decoded::Table(table)) => found(rt, search, table, path),
        Ok(Decoded::None) => taken(rt, search, search::none(search), path, place),
        Ok(Decoded::Unknown) => taken(rt, search, search::unknown(search), path, place),
        Err(x) => {
            refuse(rt, x, path, place);
            None
        }
    }
}

fn found(rt: &HostRuntime, search: Search, table: Automaton, path: &[u8]) -> Option<Search> {
    let mut prefix = [0u8; PREFIX];
    let mut cycle = [0u8; LOOP];
    let reply = search::found(search, table, &mut prefix, &mut cycle);
    taken(rt, search, reply, path, Place::first())
}

fn taken(
    rt: &HostRuntime,
    search: Search,
    reply: Result<Reply, Refusal>,
    path: &[u8],
    place: Place,
) -> Option<Search>
    ensures { result ≡ cond (is_ok reply) (Some (next search reply)) None }
{
    if let Err(x) = reply {
        refuse(rt, x, path, place);
        return None;
    }
    Some(search::next(search, reply))
}

fn print_search(rt: &HostRuntime, search: Search) {
    if !search.finished {
        return print_question(rt, search.n, search.m);
    }
    let line: &[u8] = if search.open {
        b"finished open\n"
    } else {
        b"finished\n"
    };
    if print(rt, line, line.len()).is_ok() {
        let _ = print_automaton(rt, search.best);
    }
}

fn print_question(rt: &HostRuntime, n: usize, m: usize) {
    let mut line = [0u8; LINE];
    let length = ask(n, m, &mut line);
    let _ = print_line(rt, &line, length);
}

// The clause file for a profile, or what a solver's answer to it decodes to. A profile is what is named for the file: the candidate's
// numbers of states and sets, the clause list, the candidate's acceptance, and where its marks stand.
#![tactic(auto)]

ghost use Rattle.std.specs.Prelude.{◌≤◌};

use automaton::Automaton;
use clause_sizes::{Target, measure};
use console_clauses::print_file;
use console_decoded::decode_input;
use console_input::{TEXT, from_argument, from_input, number};
use console_lines::refuse;
use console_places::Place;
use console_places::part::first;
use console_profiles::{Unnamed, profile_of};
use console_read::{PATH, argument, argument_count};
use hoa_words::same;
use refusals::Refusal;

// What is printed for the profile: the clause file, or what standard input decodes to.
#[derive(Clone, Copy)]
enum Job {
    Clauses,
    Decode,
}

// What the arguments name from N on. Of a mask with a yes past the sets of marks of any automaton there is no target.
#[derive(Clone, Copy)]
struct Arguments {
    states: usize,
    sets: usize,
    target: Option<Target>,
}

fn main(rt: HostRuntime) {
    let rt = &rt;
    if argument_count(rt) < 2 {
        return usage(rt);
    }
    let mut word = [0u8; PATH];
    let length = argument(rt, 1, &mut word).unwrap_or(0);
    let job = first(&word, length);
    if same(b"clauses", job) & (argument_count(rt) == 7) {
        return run(rt, named(rt, 2), Job::Clauses);
    }
    if same(b"decode", job) & (argument_count(rt) == 8) {
        return run(rt, named(rt, 3), Job::Decode);
    }
    usage(rt);
}

// N, M, LIST, ACCEPTANCE and MARKS, from argument `at` on.
fn named(rt: &HostRuntime, at: usize) -> Option<Arguments>
    requires { at ≤ 3 }
{
    let mut word = [0u8; PATH];
    let states = number(rt, at, &mut word).number? as usize;
    let sets = number(rt, at + 1, &mut word).number? as usize;
    let target = match words(rt, at + 2, states, sets) {
        Ok(target) => Some(target),
        Err(Unnamed::Past) => None,
        Err(Unnamed::Unknown) => return None,
    };
    Some(Arguments {
        states,
        sets,
        target,
    })
}

fn words(rt: &HostRuntime, at: usize, states: usize, sets: usize) -> Result<Target, Unnamed>
    requires { at ≤ 5 }
{
    let mut list = [0u8; PATH];
    let listed = argument(rt, at, &mut list).unwrap_or(0);
    let mut acceptance = [0u8; PATH];
    let accepted = argument(rt, at + 1, &mut acceptance).unwrap_or(0);
    let mut marks = [0u8; PATH];
    let marked = argument(rt, at + 2, &mut marks).unwrap_or(0);
    profile_of(
        first(&list, listed),
        first(&acceptance, accepted),
        first(&marks, marked),
        states,
        sets,
    )
}

fn run(rt: &HostRuntime, named: Option<Arguments>, job: Job) {
    let Some(named) = named else {
        return usage(rt);
    };
    let mut text = [0u8; TEXT];
    let Some(reference) = reference(rt, job, &mut text) else {
        return;
    };
    match named.target {
        Some(target) => answer(rt, reference, target, job),
        None => refuse_past(rt, reference, named.states, named.sets),
    }
}

fn reference(rt: &HostRuntime, job: Job, text: &mut [u8]) -> Option<Automaton> {
    match job {
        Job::Clauses => from_input(rt, text).given,
        Job::Decode => from_argument(rt, 2, text).given,
    }
}

fn answer(rt: &HostRuntime, reference: Automaton, target: Target, job: Job) {
    match job {
        Job::Clauses => {
            print_file(rt, reference, target, b"hoa_profile");
        }
        Job::Decode => {
            decode_input(rt, reference, target, b"hoa_profile");
        }
    }
}

// A mask that no number of sets has room for: 4, after what is said of the other sizes.
fn refuse_past(rt: &HostRuntime, reference: Automaton, states: usize, sets: usize) {
    let x = match measure(reference, Target::every(states, sets)) {
        Ok(_) => Refusal::Outside,
        Err(x) => x,
    };
    refuse(rt, x, b"hoa_profile", Place::first());
}

fn usage(rt: &HostRuntime) {
    console_print::usage(
        rt,
        b"hoa_profile clauses N M LIST ACCEPTANCE MARKS < REFERENCE, or hoa_profile decode REFERENCE N M LIST ACCEPTANCE MARKS < SOLVER-OUTPUT",
    );
}

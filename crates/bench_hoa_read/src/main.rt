// Reads texts of automata again and again, for `bench/run`: standard input holds them in slots of equal length, the argument says how often. Prints how
// many readings were accepted, and the sum of their states.
#![tactic(auto)]

use console_input::number;
use console_places::part::first;
use console_print::print;
use console_read::{PATH, argument_count, read_input};
use console_report::lines::LINE;
use pieces::{byte, word};

// Bytes of a slot: a text, and line feeds behind it.
const SLOT: usize = 4096;

#[derive(Clone, Copy)]
struct Tally {
    accepted: u64,
    states: u64,
}

fn main(rt: HostRuntime) {
    let rt = &rt;
    if argument_count(rt) != 2 {
        return usage(rt);
    }
    let mut word = [0u8; PATH];
    let Some(rounds) = number(rt, 1, &mut word).number else {
        return usage(rt);
    };
    let mut texts = [0u8; hoa_read::TEXT];
    let Ok(length) = read_input(rt, &mut texts) else {
        return;
    };
    tell(rt, read_often(first(&texts, length), rounds));
}

fn usage(rt: &HostRuntime) {
    console_print::usage(rt, b"bench_hoa_read COUNT < SLOTS");
}

fn read_often(texts: &[u8], rounds: u64) -> Tally {
    let mut tally = Tally {
        accepted: 0,
        states: 0,
    };
    for _round in 0..rounds {
        tally = read_slots(texts, tally);
    }
    tally
}

// Every whole slot once.
fn read_slots(texts: &[u8], before: Tally) -> Tally {
    let mut tally = before;
    for slot in texts.chunks_exact(SLOT) {
        tally = read_slot(slot, tally);
    }
    tally
}

fn read_slot(text: &[u8], before: Tally) -> Tally {
    match hoa_read::read(text) {
        Ok(automaton) => Tally {
            accepted: before.accepted.wrapping_add(1),
            states: before.states.wrapping_add(automaton.states as u64),
        },
        Err(_) => before,
    }
}

fn tell(rt: &HostRuntime, tally: Tally) {
    let mut line = [0u8; LINE];
    let mut at = word(b"accepted ", &mut line, 0);
    at = decimal::write(tally.accepted, &mut line, at);
    at = word(b" states ", &mut line, at);
    at = decimal::write(tally.states, &mut line, at);
    at = byte(b'\n', &mut line, at);
    let _ = print(rt, &line, at);
}

// Says whether the automata of two files agree, and where they do not, prints the first word that shows it.
#![tactic(auto)]

use automaton::Automaton;
use compare::{LOOP, PREFIX, compare};
use console_input::{TEXT, judge};
use console_lines::{print_line, refuse};
use console_places::Place;
use console_places::part::first;
use console_print::{print, usage};
use console_read::{PATH, argument, argument_count, read_file};
use console_report::lines;
use console_report::lines::LINE;
use console_results::print_word;
use refusals::Refusal;

fn main(rt: HostRuntime) {
    let rt = &rt;
    if argument_count(rt) != 3 {
        usage(rt, b"hoa_compare FIRST SECOND");
        return;
    }
    let mut one = [0u8; PATH];
    let Some(one_length) = argument(rt, 1, &mut one) else {
        return;
    };
    let mut other = [0u8; PATH];
    let Some(other_length) = argument(rt, 2, &mut other) else {
        return;
    };
    compare_files(rt, first(&one, one_length), first(&other, other_length));
}

// Both files are read before either is judged.
fn compare_files(rt: &HostRuntime, one: &[u8], other: &[u8]) {
    let mut one_text = [0u8; TEXT];
    let Ok(one_length) = read_file(rt, one, &mut one_text) else {
        return;
    };
    let mut other_text = [0u8; TEXT];
    let Ok(other_length) = read_file(rt, other, &mut other_text) else {
        return;
    };
    let Some(a) = judge(rt, one, &one_text, one_length) else {
        return;
    };
    let Some(b) = judge(rt, other, &other_text, other_length) else {
        return;
    };
    print_comparison(rt, a, b);
}

fn print_comparison(rt: &HostRuntime, first: Automaton, second: Automaton) {
    let mut prefix = [0u8; PREFIX];
    let mut cycle = [0u8; LOOP];
    match compare(first, second, &mut prefix, &mut cycle) {
        Ok(()) => {
            let _ = print(rt, b"same\n", 5);
        }
        // The answer that the two differ.
        Err(Refusal::Differ(p, l)) => print_difference(rt, p, l, &prefix, &cycle),
        Err(x) => {
            refuse(rt, x, b"hoa_compare", Place::first());
        }
    }
}

fn print_difference(
    rt: &HostRuntime,
    p: usize,
    l: usize,
    prefix: &[u8; PREFIX],
    cycle: &[u8; LOOP],
) {
    let mut line = [0u8; LINE];
    let length = lines::differ(p, l, &mut line);
    if print_line(rt, &line, length).is_ok() {
        let _ = print_word(rt, prefix, p, cycle, l);
    }
}

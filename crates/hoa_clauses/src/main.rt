// Prints the clause file for the reference on standard input and the candidate's numbers of states and sets, with Inf of all sets, of
// the list that a third argument names.
#![tactic(auto)]

use clause_sizes::Target;
use console_clauses::print_file;
use console_input::{TEXT, from_input, number};
use console_places::part::first;
use console_profiles::listing_of;
use console_read::{PATH, argument_count, argument_or_empty};

fn main(rt: HostRuntime) {
    let rt = &rt;
    if !matches!(argument_count(rt), 3 | 4) {
        return usage(rt);
    }
    let mut word = [0u8; PATH];
    let Some(n) = number(rt, 1, &mut word).number else {
        return usage(rt);
    };
    let Some(m) = number(rt, 2, &mut word).number else {
        return usage(rt);
    };
    let mut text = [0u8; TEXT];
    let Some(reference) = from_input(rt, &mut text).given else {
        return;
    };
    // A third argument that is not there, or too long to be read, is an empty word.
    let length = argument_or_empty(rt, 3, &mut word);
    let listing = listing_of(first(&word, length));
    let target = Target::every(n as usize, m as usize).listed(listing);
    print_file(rt, reference, target, b"hoa_clauses");
}

fn usage(rt: &HostRuntime) {
    console_print::usage(rt, b"hoa_clauses N M [LIST] < REFERENCE");
}

// Prints the automaton that the solver's output on standard input describes, compared with the reference. The output answers the
// clause file of the list that a fourth argument names.
#![tactic(auto)]

use clause_sizes::Target;
use console_decoded::decode_input;
use console_input::{TEXT, from_argument, number};
use console_places::part::first;
use console_profiles::listing_of;
use console_read::{PATH, argument_count, argument_or_empty};

fn main(rt: HostRuntime) {
    let rt = &rt;
    if !matches!(argument_count(rt), 4 | 5) {
        return usage(rt);
    }
    let mut word = [0u8; PATH];
    let Some(n) = number(rt, 2, &mut word).number else {
        return usage(rt);
    };
    let Some(m) = number(rt, 3, &mut word).number else {
        return usage(rt);
    };
    let mut text = [0u8; TEXT];
    let Some(reference) = from_argument(rt, 1, &mut text).given else {
        return;
    };
    // A fourth argument that is not there, or too long to be read, is an empty word.
    let length = argument_or_empty(rt, 4, &mut word);
    let listing = listing_of(first(&word, length));
    let target = Target::every(n as usize, m as usize).listed(listing);
    decode_input(rt, reference, target, b"hoa_decode");
}

fn usage(rt: &HostRuntime) {
    console_print::usage(rt, b"hoa_decode REFERENCE N M [LIST] < SOLVER-OUTPUT");
}

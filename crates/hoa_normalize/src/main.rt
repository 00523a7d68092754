// Prints the automaton on standard input as document 01 writes it.
#![tactic(auto)]

use console_input::{TEXT, from_input};
use console_print::usage;
use console_read::argument_count;
use console_results::print_automaton;

fn main(rt: HostRuntime) {
    let rt = &rt;
    if argument_count(rt) != 1 {
        usage(rt, b"hoa_normalize < FILE");
        return;
    }
    let mut text = [0u8; TEXT];
    if let Some(automaton) = from_input(rt, &mut text).given {
        let _ = print_automaton(rt, automaton);
    }
}

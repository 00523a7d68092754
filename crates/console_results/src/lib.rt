// Results as the programs print them: automata, and words that show a difference.
#![tactic(auto)]

ghost use Rattle.std.specs.Prelude.{take};
ghost use Rattle.console_report.specs.Lines.{word_lines};
ghost use Rattle.console_print.specs.Handed.{Hands};
ghost use Rattle.console_results.specs.Results.{HandsAutomaton};

use automaton::Automaton;
use compare::{LOOP, PREFIX};
use console_lines::refuse;
use console_places::Place;
use console_print::{handed, print};
use console_report::lasso::{WORD, word_lines};
use refusals::Refusal;

// Prints an automaton as HOA text, or its refusal.
pub fn print_automaton(rt: &HostRuntime, a: Automaton) -> Result<usize, Refusal>
    ensures { HandsAutomaton a result }
{
    let mut text = [0u8; hoa_write::BYTES];
    match hoa_write::write(a, &mut text) {
        Ok(length) => Ok(handed(print(rt, &text, length))),
        Err(x) => {
            refuse(rt, x, b"the automaton", Place::first());
            Err(x)
        }
    }
}

// Prints the two lines of a lasso word, which stands in two buffers.
pub fn print_word(
    rt: &HostRuntime,
    prefix: &[u8; PREFIX],
    prefixed: usize,
    cycle: &[u8; LOOP],
    cycled: usize,
) -> Result<usize, usize>
    ensures { Hands (word_lines (take prefixed prefix.now) (take cycled cycle.now)) result }
{
    let mut text = [0u8; WORD];
    let length = word_lines(prefix, prefixed, cycle, cycled, &mut text);
    print(rt, &text, length)
}

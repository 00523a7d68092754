// What the decoder answers, as the programs print it.
#![tactic(auto)]

ghost use Rattle.std.specs.Prelude.{◌≡◌};
ghost use Rattle.console_report.specs.Lines.{refused_line};
ghost use Rattle.console_decoded.specs.Printed.{unworded, Alone, HandsTable, HandsRefused, HandsDecoded, HandsInput};
ghost use Rattle.console_decoded.specs.Behind.{HandsBehind};

use automaton::Automaton;
use clause_sizes::Target;
use compare::{LOOP, PREFIX};
use console_lines::refuse;
use console_places::Place;
use console_print::{handed, print};
use console_results::{print_automaton, print_word};
use decode::Decoded;
use refusals::Refusal;

// How many bytes were handed over to the output: those of the answer, and behind them those of the two lines of a word, if there is one.
#[derive(Clone, Copy)]
pub struct Output {
    pub answer: usize,
    pub word: Option<usize>,
}

// Decodes the solver's output on standard input, compared with the reference, and prints the answer. Of an input that could not be read nothing is printed; standard error
// has the reason.
pub fn decode_input(
    rt: &HostRuntime,
    reference: Automaton,
    target: Target,
    program: &[u8],
) -> Output
    ensures { HandsInput reference target result }
{
    let mut prefix = [0u8; PREFIX];
    let mut cycle = [0u8; LOOP];
    let mut input = rt.stdin();
    let told = console_answers::read(
        rt,
        &mut input,
        b"standard input",
        reference,
        target,
        &mut prefix,
        &mut cycle,
    );
    match told {
        Ok(told) => print_decoded(rt, told.decoded, told.place, program, &prefix, &cycle),
        Err(_) => unworded(0),
    }
}

// Prints the table as HOA text, `none`, `unknown`, or the refusal of an input whose place is given, and the word that stands in the two buffers.
pub fn print_decoded(
    rt: &HostRuntime,
    decoded: Result<Decoded, Refusal>,
    place: Place,
    program: &[u8],
    prefix: &[u8; PREFIX],
    cycle: &[u8; LOOP],
) -> Output
    ensures { HandsDecoded decoded prefix.now cycle.now result }
{
    match decoded {
        Ok(Decoded::Table(table)) => print_table(rt, table),
        Ok(Decoded::None) => print_answer(rt, b"none\n"),
        Ok(Decoded::Unknown) => print_answer(rt, b"unknown\n"),
        Err(x) => print_refusal(rt, x, place, program, prefix, cycle),
    }
}

// Its text, or 4 where it is none that HOA could give. What is valid is not turned down.
fn print_table(rt: &HostRuntime, table: Automaton) -> Output
    ensures { HandsTable table result }
{
    if !table.valid() {
        return print_line(rt, Refusal::Outside, b"the automaton", Place::first());
    }
    unworded(print_automaton(rt, table).unwrap_or(0))
}

fn print_answer(rt: &HostRuntime, word: &[u8]) -> Output
    ensures { Alone word.now result }
{
    unworded(handed(print(rt, word, word.len())))
}

// After 12 comes the first word that shows the difference; 8, and 4 for the named acceptance, speak of the arguments.
fn print_refusal(
    rt: &HostRuntime,
    x: Refusal,
    place: Place,
    program: &[u8],
    prefix: &[u8; PREFIX],
    cycle: &[u8; LOOP],
) -> Output
    ensures { HandsRefused x prefix.now cycle.now result }
{
    match x {
        Refusal::Differ(p, l) => {
            let refused = refuse(rt, x, b"standard input", place);
            print_behind(rt, refused.line, prefix, p, cycle, l)
        }
        Refusal::Dimensions(_, _) => print_line(rt, x, program, place),
        Refusal::Outside => print_line(rt, x, program, place),
        _ => print_line(rt, x, b"standard input", place),
    }
}

// No word follows a line that the output did not take.
fn print_behind(
    rt: &HostRuntime,
    line: Result<usize, usize>,
    prefix: &[u8; PREFIX],
    p: usize,
    cycle: &[u8; LOOP],
    l: usize,
) -> Output
    ensures { HandsBehind line p l prefix.now cycle.now result }
{
    match line {
        Ok(answer) => Output {
            answer,
            word: Some(handed(print_word(rt, prefix, p, cycle, l))),
        },
        Err(answer) => unworded(answer),
    }
}

fn print_line(rt: &HostRuntime, x: Refusal, name: &[u8], place: Place) -> Output
    ensures { Alone (refused_line x) result }
{
    unworded(handed(refuse(rt, x, name, place).line))
}

fn unworded(answer: usize) -> Output
    ensures { result ≡ unworded answer }
{
    Output { answer, word: None }
}

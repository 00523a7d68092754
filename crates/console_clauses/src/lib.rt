// The clause file as the programs print it, batch after batch.
#![tactic(auto)]

ghost use Rattle.std.specs.Prelude.{◌≡◌, ◌≤◌, Ok, length as count};
ghost use Rattle.automaton.specs.Value.{Valid};
ghost use Rattle.clause_sizes.specs.Targets.{Proper};
ghost use Rattle.console_report.specs.Lines.{header_line, refused_line};
ghost use Rattle.console_print.specs.Handed.{handed, Hands};
ghost use Rattle.console_clauses.specs.declared.Printout.TheVariants.{Refused};
ghost use Rattle.console_clauses.specs.Prints.{HandsFile};
ghost use Rattle.console_clauses.specs.Batch.{HandsBatch, HandsBehind};

use automaton::Automaton;
use clause_header::header;
use clause_sizes::Target;
use clause_step::fresh;
use clause_text::lines;
use console_lines::{print_line, refuse};
use console_places::Place;
use console_print::{handed, print};
use console_report::lines::LINE;
use refusals::Refusal;

// What was handed over to the output, with the number of its bytes.
#[derive(Clone, Copy)]
pub enum Printout {
    // A whole clause file.
    Whole(u64),
    // The header's line, and lines of which the output did not take the last.
    Cut(u64),
    // The header's line, which the output did not take.
    Header(u64),
    // The line of a refusal.
    Refused(u64),
}

// Prints the clause file, header first, or its refusal, which speaks of the program's arguments. Nothing comes behind bytes that the output did not take.
pub fn print_file(
    rt: &HostRuntime,
    reference: Automaton,
    target: Target,
    program: &[u8],
) -> Printout
    ensures { HandsFile reference target result }
{
    match header(reference, target) {
        Ok(totals) => {
            let header = print_header(rt, totals.variables, totals.clauses);
            print_clauses(rt, reference, target, header)
        }
        Err(x) => print_refusal(rt, x, program),
    }
}

fn print_refusal(rt: &HostRuntime, x: Refusal, program: &[u8]) -> Printout
    ensures { result ≡ Refused (count (refused_line x)) }
{
    let refused = refuse(rt, x, program, Place::first());
    Printout::Refused(handed(refused.line) as u64)
}

fn print_header(rt: &HostRuntime, variables: u64, clauses: u64) -> Result<usize, usize>
    ensures is { Hands (header_line variables clauses) result }
    ensures most { handed result ≤ 80 }
{
    let mut line = [0u8; LINE];
    let length = console_report::lines::header(variables, clauses, &mut line);
    print_line(rt, &line, length)
}

// No batch follows a header that the output did not take.
fn print_clauses(
    rt: &HostRuntime,
    reference: Automaton,
    target: Target,
    header: Result<usize, usize>,
) -> Printout
    requires valid { Valid reference }
    requires proper { Proper target }
    requires length_bound { handed header ≤ 80 }
    ensures { HandsBehind reference target header result }
{
    match header {
        Ok(length) => print_batches(rt, reference, target, length),
        Err(length) => Printout::Header(length as u64),
    }
}

// Batch after batch, behind the bytes of the header. Each batch leaves fewer clauses, and has at most 262,144 bytes.
fn print_batches(rt: &HostRuntime, reference: Automaton, target: Target, header: usize) -> Printout
    requires valid { Valid reference }
    requires proper { Proper target }
    requires header_bound { header ≤ 80 }
    ensures { HandsBehind reference target (Ok header) result }
{
    let mut bytes = header as u64;
    let mut position = fresh();
    loop {
        match print_batch(rt, reference, target, position) {
            Batch::More(length, after) => {
                bytes += length as u64;
                position = after;
            }
            Batch::Ended => return Printout::Whole(bytes),
            Batch::Failed(length) => return Printout::Cut(bytes + length as u64),
        }
    }
}

// What became of a batch.
#[derive(Clone, Copy)]
enum Batch {
    // The output took so many bytes, and there may be more lines from the position on.
    More(usize, u64),
    // All clauses had been handed out, and nothing was written.
    Ended,
    // So many bytes were handed over, and the output did not take them.
    Failed(usize),
}

// As many lines as a buffer holds. It has room for one, so that the call is not refused.
fn print_batch(rt: &HostRuntime, reference: Automaton, target: Target, position: u64) -> Batch
    requires valid { Valid reference }
    requires proper { Proper target }
    requires position_bound { position ≤ 8657059969 }
    ensures { HandsBatch reference target position result }
{
    let mut text = empty_batch();
    let handed = lines(reference, target, position, &mut text).unwrap();
    let after = handed.position;
    let Some(length) = handed.written else {
        return Batch::Ended;
    };
    match print(rt, &text, length) {
        Ok(taken) => Batch::More(taken, after),
        Err(left) => Batch::Failed(left),
    }
}

// The bytes of a batch. The more lines, the more often a text that is kept serves again.
const BATCH: usize = 262144;

fn empty_batch() -> [u8; BATCH]
    ensures { 262144 ≡ count result }
{
    [0u8; BATCH]
}

// The decoder: from solver text that was read to the table that it describes.
#![tactic(auto)]

ghost use Rattle.std.specs.Prelude.{◌≡◌};
ghost use Rattle.automaton.specs.Value.{Valid};
ghost use Rattle.compare.specs.Compared.{Room};
ghost use Rattle.clause_sizes.specs.Targets.{Proper};
ghost use Rattle.clause_sizes.specs.Measured.{Measured};
ghost use Rattle.clause_sizes.specs.Sizes.{target_of};
ghost use Rattle.decode.specs.Answers.{Decodes, ByVerdict, ByAssignment, said};
ghost use Rattle.decode.specs.Ready.{candidate};

use automaton::Automaton;
use clause_sizes::{Sizes, Target, measure};
use compare::{LOOP, PREFIX, compare};
use refusals::Refusal;
use solver_scan::Verdict;
use solver_text::Reader;

mod cells;

// What the text says, where nothing is turned down.
#[derive(Clone, Copy)]
pub enum Decoded {
    // The verdict is SATISFIABLE, and this table, which was decoded, agrees with the reference.
    Table(Automaton),
    // The verdict is UNSATISFIABLE.
    None,
    // The verdict is UNKNOWN.
    Unknown,
}

// What the reader holds, as an answer: the text ends here. Where the table that is decoded differs from the reference, a word
// that shows it is written into `prefix` and `cycle`.
pub fn decode(
    reference: Automaton,
    target: Target,
    reader: Reader,
    prefix: &mut [u8],
    cycle: &mut [u8],
) -> Result<Decoded, Refusal>
    ensures { Decodes prefix.old prefix.new cycle.old cycle.new result reference target reader }
{
    if prefix.len() < PREFIX {
        return Err(Refusal::Short(PREFIX, prefix.len()));
    }
    if cycle.len() < LOOP {
        return Err(Refusal::Short(LOOP, cycle.len()));
    }
    let reply = reader.finish(reference, target);
    reply.answer?;
    by_verdict(reference, target, reply.reader, prefix, cycle)
}

// The answer to a text that is in form.
fn by_verdict(
    reference: Automaton,
    target: Target,
    held: Reader,
    prefix: &mut [u8],
    cycle: &mut [u8],
) -> Result<Decoded, Refusal>
    requires { Room prefix.old cycle.old }
    ensures { Valid reference → Proper target → ByVerdict prefix.old prefix.new cycle.old cycle.new result reference target held }
{
    match held.scan.verdict {
        Verdict::Unstated => Err(Refusal::SolverForm(held.scan.at as usize)),
        Verdict::Satisfiable => by_assignment(reference, target, held, prefix, cycle),
        Verdict::Unsatisfiable => Ok(Decoded::None),
        Verdict::Unknown => Ok(Decoded::Unknown),
    }
}

// The answer to an assignment.
fn by_assignment(
    reference: Automaton,
    target: Target,
    held: Reader,
    prefix: &mut [u8],
    cycle: &mut [u8],
) -> Result<Decoded, Refusal>
    requires { Room prefix.old cycle.old }
    ensures { Valid reference → Proper target → ByAssignment prefix.old prefix.new cycle.old cycle.new result reference target (said held) }
{
    let measurement = measure(reference, target)?;
    by_table(reference, measurement.sizes, held, prefix, cycle)
}

// The same, for the sizes of the file: the table, where it agrees with the reference.
fn by_table(
    reference: Automaton,
    z: Sizes,
    held: Reader,
    prefix: &mut [u8],
    cycle: &mut [u8],
) -> Result<Decoded, Refusal>
    requires { Measured reference z × Room prefix.old cycle.old }
    ensures { ByAssignment prefix.old prefix.new cycle.old cycle.new result reference (target_of z) (said held) }
{
    let mut destinations = [0u8; Automaton::CELLS];
    let mut marks = [0u8; Automaton::CELLS];
    if let Some(i) = cells::fill(z, &held.named, &mut destinations, &mut marks) {
        return Err(Refusal::NoStep(i / Automaton::LETTERS, i % Automaton::LETTERS));
    }
    let table = table_of(reference, z, destinations, marks);
    compare(table, reference, prefix, cycle)?;
    Ok(Decoded::Table(table))
}

// A table with the propositions of the reference and the named acceptance.
fn table_of(
    reference: Automaton,
    z: Sizes,
    destinations: [u8; Automaton::CELLS],
    marks: [u8; Automaton::CELLS],
) -> Automaton
    ensures { result ≡ candidate reference z destinations marks }
{
    Automaton {
        states: z.candidate.states,
        start: 0,
        sets: z.candidate.sets,
        acceptance: z.candidate.acceptance,
        destinations,
        marks,
        ..reference
    }
}

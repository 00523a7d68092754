// The writer of HOA text.
#![tactic(auto)]

ghost use Rattle.std.specs.Prelude.{◌≤◌, ◌++◌, length};
ghost use Rattle.meaning.specs.Counting.{each};
ghost use Rattle.automaton.specs.Value.{Valid};
ghost use Rattle.decimal.specs.Wrote.{Wrote};
ghost use Rattle.hoa_text.specs.Written.{text, hoa_line, states_line, start_line, names_part, acceptance_line, body_line, state_lines, end_line};
ghost use Rattle.hoa_write.specs.Answer.{Answered};

use automaton::Automaton;
use refusals::Refusal;

mod condition;
mod edges;
mod lines;
mod parts;

// Bytes of the lent buffer: more than any text has.
pub const BYTES: usize = 8192;

// Writes the text of an automaton at the start of the lent buffer, and returns the number of bytes.
pub fn write(a: Automaton, out: &mut [u8]) -> Result<usize, Refusal>
    ensures { Answered a out.old out.new result }
{
    if out.len() < BYTES {
        return Err(Refusal::Short(BYTES, out.len()));
    }
    if !a.valid() {
        return Err(Refusal::Outside);
    }
    Ok(text(a, out))
}

fn text(a: Automaton, out: &mut [u8]) -> usize
    requires { Valid a × (length (text a) ≤ length out.old) }
    ensures { Wrote out.old 0 (text a) out.new result }
{
    let mut at = sizes(a, out);
    at += names_and_acceptance(a, &mut out[at..]);
    at + body(a, &mut out[at..])
}

fn sizes(a: Automaton, out: &mut [u8]) -> usize
    requires { Valid a × (length (hoa_line ++ (states_line a ++ start_line a)) ≤ length out.old) }
    ensures { Wrote out.old 0 (hoa_line ++ (states_line a ++ start_line a)) out.new result }
{
    let mut at = lines::hoa_line(out);
    at += lines::number_line(&hoa_words::STATES, a.states, &mut out[at..]);
    at + lines::number_line(&hoa_words::START, a.start, &mut out[at..])
}

fn names_and_acceptance(a: Automaton, out: &mut [u8]) -> usize
    requires { Valid a × (length (names_part a ++ acceptance_line a) ≤ length out.old) }
    ensures { Wrote out.old 0 (names_part a ++ acceptance_line a) out.new result }
{
    let at = lines::names_part(a, out);
    at + lines::acceptance_line(a, &mut out[at..])
}

fn body(a: Automaton, out: &mut [u8]) -> usize
    requires { Valid a × (length (body_line ++ (each a.states (state_lines a) ++ end_line)) ≤ length out.old) }
    ensures { Wrote out.old 0 (body_line ++ (each a.states (state_lines a) ++ end_line)) out.new result }
{
    let mut at = lines::word_line(&hoa_words::BODY, out);
    at += states(a, &mut out[at..]);
    at + lines::word_line(&hoa_words::END, &mut out[at..])
}

fn states(a: Automaton, out: &mut [u8]) -> usize
    requires { Valid a × (length (each a.states (state_lines a)) ≤ length out.old) }
    ensures { Wrote out.old 0 (each a.states (state_lines a)) out.new result }
{
    let mut at: usize = 0;
    for q in 0..a.states {
        at += edges::state_lines(a, q, &mut out[at..]);
    }
    at
}

// Numbers among the arguments, and automata, as the programs read them.
#![tactic(auto)]

ghost use Rattle.std.specs.Prelude.{◌≡◌, length, take, None};
ghost use Rattle.hoa_text.specs.Reading.{read};
ghost use Rattle.console_read.specs.Counts.{InputRead, FileRead, ArgumentRead};
ghost use Rattle.console_input.specs.Given.{given, FromText, FromWord};

use automaton::Automaton;
use console_lines::refuse;
use console_numerals::parse;
use console_places::of;
use console_places::part::first;
use console_read::{PATH, argument, read_file, read_input};
use refusals::Refusal;

// One byte more than a text may have, so that a longer one is seen.
pub const TEXT: usize = hoa_read::TEXT + 1;

// How much of a text was read, and the automaton in it. Where it is not whole or gives none, standard error has the reason.
#[derive(Clone, Copy)]
pub struct Held {
    pub got: Result<usize, usize>,
    pub given: Option<Automaton>,
}

// How much of a word was read, and the number that it spells.
#[derive(Clone, Copy)]
pub struct Numbered {
    pub got: Option<usize>,
    pub number: Option<u64>,
}

// The automaton on standard input, whose text is read into the buffer.
pub fn from_input(rt: &HostRuntime, text: &mut [u8]) -> Held
    ensures read { InputRead (length text.new) 0 result.got }
    ensures is { FromText text.new result }
{
    let got = read_input(rt, text);
    judge_read(rt, b"standard input", text, got)
}

// The automaton in the file that an argument names.
pub fn from_argument(rt: &HostRuntime, i: usize, text: &mut [u8]) -> Held
    ensures read { FileRead (length text.new) result.got }
    ensures is { FromText text.new result }
{
    let mut path = [0u8; PATH];
    match argument(rt, i, &mut path) {
        Some(length) => from_file(rt, first(&path, length), text),
        None => Held {
            got: Err(0),
            given: None,
        },
    }
}

fn from_file(rt: &HostRuntime, path: &[u8], text: &mut [u8]) -> Held
    ensures read { FileRead (length text.new) result.got }
    ensures is { FromText text.new result }
{
    let got = read_file(rt, path, text);
    judge_read(rt, path, text, got)
}

// The automaton in what was read, if all of it was.
fn judge_read(rt: &HostRuntime, name: &[u8], text: &[u8], got: Result<usize, usize>) -> Held
    ensures got { result.got ≡ got }
    ensures is { FromText text.now result }
{
    let given = got.ok().and_then(|length| judge(rt, name, text, length));
    Held { got, given }
}

// The automaton in the first bytes of a buffer.
pub fn judge(rt: &HostRuntime, name: &[u8], text: &[u8], length: usize) -> Option<Automaton>
    ensures { result ≡ given (read (take length text.now)) }
{
    let text = first(text, length);
    match hoa_read::read(text) {
        Ok(automaton) => Some(automaton),
        Err(x) => turned_down(rt, x, name, text),
    }
}

fn turned_down(rt: &HostRuntime, x: Refusal, name: &[u8], text: &[u8]) -> Option<Automaton>
    ensures { result ≡ None }
{
    let code = x.code();
    refuse(rt, x, name, of(text, code.first));
    None
}

// A number among the arguments, which is read into the buffer as a word.
pub fn number(rt: &HostRuntime, i: usize, word: &mut [u8]) -> Numbered
    ensures read { ArgumentRead (length word.new) result.got }
    ensures is { FromWord word.new result }
{
    let got = argument(rt, i, word);
    let number = got.and_then(|length| parse(first(word, length)));
    Numbered { got, number }
}

// Lines as the programs print them, and refusals: a line, and a sentence.
#![tactic(auto)]

ghost use Rattle.std.specs.Prelude.{◌≡◌, take, length as count};
ghost use Rattle.console_sentences.specs.Sentences.{sentence as sentenceOf};
ghost use Rattle.console_print.specs.Handed.{Hands};
ghost use Rattle.console_lines.specs.Refusing.{HandsRefusal};

use console_places::Place;
use console_print::{print, say};
use console_report::lines;
use console_report::lines::LINE;
use console_sentences::{SENTENCE, sentence};
use refusals::{Code, Refusal};

// The refusal that was told, its line on standard output, and the bytes of its sentence on standard error.
#[derive(Clone, Copy)]
pub struct TurnedDown {
    pub code: Code,
    pub line: Result<usize, usize>,
    pub sentence: usize,
}

// Prints the line in the first bytes of a buffer.
pub fn print_line(rt: &HostRuntime, line: &[u8; LINE], length: usize) -> Result<usize, usize>
    ensures { Hands (take length line.now) result }
{
    print(rt, line, length)
}

// Prints the line of a refusal, and on standard error a sentence about what is named.
pub fn refuse(rt: &HostRuntime, x: Refusal, name: &[u8], place: Place) -> TurnedDown
    ensures { HandsRefusal x place result }
{
    let mut text = [0u8; LINE];
    let length = lines::refused(x, &mut text);
    let line = print_line(rt, &text, length);
    TurnedDown {
        code: x.code(),
        line,
        sentence: explain(rt, x, name, place),
    }
}

fn explain(rt: &HostRuntime, x: Refusal, name: &[u8], place: Place) -> usize
    ensures { result ≡ count (sentenceOf x place) }
{
    let mut words = [0u8; SENTENCE];
    let length = sentence(x, place, &mut words);
    say(rt, name, name.len());
    say(rt, b": ", 2);
    say(rt, &words, length)
}

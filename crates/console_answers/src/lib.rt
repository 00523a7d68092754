// Solver text as the programs get it, in pieces of 64 KiB, and what the decoder makes of it.
#![tactic(auto)]

ghost use Rattle.std.specs.Prelude.{◌≡◌, false};
ghost use Rattle.refusals.specs.Refused.{code_of};
ghost use Rattle.console_places.specs.Places.{within};
ghost use Rattle.console_answers.specs.FromPieces.{FromPieces};
ghost use Rattle.console_answers.specs.SoFar.{Hears, Goes, SoFar, more, ended_at};

use automaton::Automaton;
use clause_sizes::Target;
use console_places::Place;
use console_places::part::first;
use console_read::{PIECE, read_some};
use decode::{Decoded, decode};
use refusals::Refusal;
use solver_text::Reader;
use std::io::Read;

// What was decoded. Of a text that was refused, `place` is that of the refusal's offset.
#[derive(Clone, Copy)]
pub struct Told {
    pub decoded: Result<Decoded, Refusal>,
    pub place: Place,
}

// Reads to the end, or until the text is refused, and decodes. Where a call failed, standard error has the reason, and the error is what the pieces before it make. The first
// word that shows a difference is written into `prefix` and `cycle`.
pub fn read<R: Read>(
    rt: &HostRuntime,
    file: &mut R,
    name: &[u8],
    reference: Automaton,
    target: Target,
    prefix: &mut [u8],
    cycle: &mut [u8],
) -> Result<Told, Told>
    ensures { FromPieces prefix.old prefix.new cycle.old cycle.new result reference target }
{
    let heard = hear_all(rt, file, name, reference, target);
    let decoded = decode(reference, target, heard.reader, prefix, cycle);
    let place = ended(decoded, heard.place, first(name, 0));
    let told = Told { decoded, place };
    match heard.stage {
        Stage::Failed => Err(told),
        _ => Ok(told),
    }
}

// The place of a refusal at the end of the text, behind which nothing comes.
fn ended(decoded: Result<Decoded, Refusal>, place: Place, nothing: &[u8]) -> Place
    ensures { result ≡ ended_at decoded place nothing.now }
{
    match decoded {
        Ok(_) => place,
        Err(x) => refused_at(x, place, nothing),
    }
}

// The place of a refusal's offset, where a piece of the text begins at `place`.
fn refused_at(x: Refusal, place: Place, piece: &[u8]) -> Place
    ensures { result ≡ within place piece.now (code_of x).first }
{
    let code = x.code();
    place.within(piece, code.first)
}

// Whether more of the text may come; where nothing more comes, whether it is whole.
#[derive(Clone, Copy)]
enum Stage {
    More,
    Whole,
    Failed,
}

// The text so far.
#[derive(Clone, Copy)]
struct Heard {
    stage: Stage,
    reader: Reader,
    place: Place,
}

// An empty piece comes first: what is refused before reading is refused before the text is waited for. Byte 4,294,967,295 is
// refused, so a text ends.
fn hear_all<R: Read>(
    rt: &HostRuntime,
    file: &mut R,
    name: &[u8],
    reference: Automaton,
    target: Target,
) -> Heard
    ensures so_far { SoFar reference target result }
    ensures over { more result.stage ≡ false }
{
    let mut heard = hear(
        Reader::fresh(),
        Place::first(),
        reference,
        target,
        first(name, 0),
    );
    while let Stage::More = heard.stage {
        heard = hear_some(rt, heard, file, name, reference, target);
    }
    heard
}

// One piece more.
fn hear_some<R: Read>(
    rt: &HostRuntime,
    heard: Heard,
    file: &mut R,
    name: &[u8],
    reference: Automaton,
    target: Target,
) -> Heard
    ensures { Goes reference target heard result }
{
    let mut piece = [0u8; PIECE];
    match read_some(rt, file, name, &mut piece) {
        None => Heard {
            stage: Stage::Failed,
            ..heard
        },
        Some(0) => Heard {
            stage: Stage::Whole,
            ..heard
        },
        Some(length) => {
            let piece = first(&piece, length);
            hear(heard.reader, heard.place, reference, target, piece)
        }
    }
}

fn hear(reader: Reader, place: Place, reference: Automaton, target: Target, piece: &[u8]) -> Heard
    ensures { Hears reference target reader place piece.now result }
{
    let reply = reader.read(reference, target, piece);
    let reader = reply.reader;
    match reply.answer {
        Ok(()) => Heard {
            stage: Stage::More,
            reader,
            place: place.after(piece),
        },
        Err(x) => Heard {
            stage: Stage::Whole,
            reader,
            place: refused_at(x, place, piece),
        },
    }
}

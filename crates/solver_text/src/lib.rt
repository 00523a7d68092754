// The reader of solver text: a state that goes from piece to piece, by value.
#![tactic(auto)]

ghost use Rattle.std.specs.Prelude.{◌≡◌};
ghost use Rattle.clause_sizes.specs.Targets.{last, kept};
ghost use Rattle.solver_text.specs.Calls.{Called};
ghost use Rattle.solver_text.specs.Machine.{fresh, run, end, told, at_rest, answer_at};

use automaton::Automaton;
use call::Variables;
use clause_sizes::Target;
use refusals::Refusal;
use solver_scan::{Place, Scan, Verdict};

mod call;
mod reading;

// What was read so far. `named` has an entry for each step and mark variable, by its number: 0 while it is not named, 1 for
// true, 2 for false; there is no variable 0.
#[derive(Clone, Copy)]
pub struct Reader {
    pub scan: Scan,
    pub named: [u8; Reader::SLOTS],
}

// Whether the text so far is refused, and the reader for the next call, on a refusal too.
#[derive(Clone, Copy)]
pub struct Reply {
    pub answer: Result<(), Refusal>,
    pub reader: Reader,
}

impl Reader {
    pub const SLOTS: usize = solver_literals::SLOTS;

    // Nothing is read.
    pub fn fresh() -> Reader
        ensures { result ≡ fresh }
    {
        Reader {
            scan: Scan {
                place: Place::Start,
                at: 0,
                verdict: Verdict::Unstated,
                letters: 0,
                listed: false,
                closed: false,
                from: 0,
                minus: false,
                value: 0,
            },
            named: [0u8; Reader::SLOTS],
        }
    }

    // Reads a piece of the text, of any length. It is refused exactly where every text that begins so is.
    pub fn read(self, reference: Automaton, target: Target, piece: &[u8]) -> Reply
        ensures { Called reference target self (told (run (last reference target) (kept reference target) self piece.now)) result }
    {
        match call::judge(self, reference, target) {
            Ok(file) => read_piece(self, piece, file),
            Err(refusal) => call::refused(refusal, self),
        }
    }

    // The text ends here.
    pub fn finish(self, reference: Automaton, target: Target) -> Reply
        ensures { Called reference target self (told (end (last reference target) (kept reference target) self)) result }
    {
        match call::judge(self, reference, target) {
            Ok(file) => end_text(self, file),
            Err(refusal) => call::refused(refusal, self),
        }
    }
}

fn read_piece(reader: Reader, piece: &[u8], file: Variables) -> Reply
    ensures { result ≡ told (run file.last file.kept reader piece.now) }
{
    let mut named = reader.named;
    let after = reading::feed(reader.scan, piece, &mut named, file.last, file.kept);
    replied(after, named)
}

fn end_text(reader: Reader, file: Variables) -> Reply
    ensures { result ≡ told (end file.last file.kept reader) }
{
    let mut named = reader.named;
    let after = reading::end(reader.scan, &mut named, file.last, file.kept);
    replied(after, named)
}

fn replied(scan: Scan, named: [u8; Reader::SLOTS]) -> Reply
    ensures { result ≡ told (at_rest scan named) }
{
    Reply {
        answer: answer_at(scan),
        reader: Reader { scan, named },
    }
}

// 9 and 10, with their offsets.
#[tactic(auto, unfolding(crate::specs::Machine::answer_at))]
fn answer_at(scan: Scan) -> Result<(), Refusal>
    ensures { result ≡ answer_at scan.place scan.at }
{
    match scan.place {
        Place::BadForm => Err(Refusal::SolverForm(scan.at as usize)),
        Place::BadLiteral => Err(Refusal::Literal(scan.at as usize)),
        _ => Ok(()),
    }
}

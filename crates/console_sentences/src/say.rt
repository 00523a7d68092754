// The patterns of the sentences. Their marks stand for numbers: `@` for the line of a place and `~` for its column, `#` and `$` for the two values of a refusal.
ghost use Rattle.std.specs.Prelude.{◌≡◌, eqb};
ghost use Rattle.automaton.specs.Bytes.{bytes};
ghost use Rattle.refusals.specs.declared.Refusal.TheVariants.{Form, Size, Item, Undeclared, Body};
ghost use Rattle.console_sentences.specs.Sentences.{pattern, ends, digit, seen};

use console_places::Place;
use refusals::Refusal;

// The pattern of a refusal, or of a cause that what stands at its place tells.
pub fn pattern(x: Refusal, place: Place) -> &'static [u8]
    ensures { result.now ≡ bytes (pattern x place) }
{
    match x {
        Refusal::Form(_) => form(place),
        Refusal::Size(offset) => size(offset, place),
        Refusal::Item(offset) => item(offset, place),
        Refusal::OtherAcceptance => item(0, place),
        Refusal::Undeclared(offset) => undeclared(offset, place),
        Refusal::Outside => undeclared(0, place),
        Refusal::Body(_, _) => body(place),
        Refusal::SecondEdge(_, _) => b"state # has a second edge for letter $.\n",
        Refusal::NoEdge(_, _) => b"state # has no edge for letter $.\n",
        Refusal::Dimensions(_, _) => {
            b"asked for # states and $ sets; allowed are 1 to 8 states and 0 to 4 sets.\n"
        }
        Refusal::SolverForm(_) => b"line @, column ~: the solver's text cannot go on like this.\n",
        Refusal::Literal(_) => {
            b"line @, column ~: a literal past the last variable, or a variable given twice.\n"
        }
        Refusal::NoStep(_, _) => b"no step is true for state # and letter $.\n",
        Refusal::Differ(_, _) => {
            b"the tables differ on a word with a prefix of # and a loop of $ letters.\n"
        }
        Refusal::Short(_, _) => b"a buffer needs # places and has $.\n",
        Refusal::Propositions(_, _) => b"one automaton has # propositions, the other $.\n",
    }
}

// At a digit a number, at `[` a label.
fn form(place: Place) -> &'static [u8]
    ensures { result.now ≡ bytes (pattern (Form 0) place) }
{
    if ends(place) {
        return b"line @, column ~: the HOA text ends too soon.\n";
    }
    if digit(place) {
        return b"line @, column ~: a number that cannot stand here, or has a leading zero; the edges of a state all have labels, or none has and there is one for each letter.\n";
    }
    if stands(place, b'[') {
        return b"line @, column ~: a label that cannot stand here; the edges of a state all have labels, or none has.\n";
    }
    b"line @, column ~: the HOA text cannot go on like this.\n"
}

// At a digit a count, at a quote a name.
fn size(offset: usize, place: Place) -> &'static [u8]
    ensures { result.now ≡ bytes (pattern (Size offset) place) }
{
    if offset == 65536 {
        return b"line @, column ~: the HOA text has more than 65,536 bytes.\n";
    }
    if digit(place) {
        return b"line @, column ~: a count outside its limits (1 to 16 states, at most 4 propositions, at most 4 sets).\n";
    }
    if stands(place, b'"') {
        return b"line @, column ~: a name that does not have 1 to 16 bytes.\n";
    }
    b"line @, column ~: the signs ! and ( nest more than 32 deep.\n"
}

// At `-` the body, at a quote a name, elsewhere the name of an item. With offset 0 the automaton was handed over as a value.
fn item(offset: usize, place: Place) -> &'static [u8]
    ensures { result.now ≡ bytes (pattern (Item offset) place) }
{
    if offset == 0 {
        return b"the table's acceptance is not Inf of all its sets.\n";
    }
    if stands(place, b'-') {
        return b"line @, column ~: States, Start or Acceptance is missing.\n";
    }
    if stands(place, b'"') {
        return b"line @, column ~: two propositions have one name.\n";
    }
    b"line @, column ~: an item is given twice.\n"
}

// With offset 0 the automaton was handed over as a value.
fn undeclared(offset: usize, place: Place) -> &'static [u8]
    ensures { result.now ≡ bytes (pattern (Undeclared offset) place) }
{
    if offset == 0 {
        return b"the value lies outside the automata that are allowed.\n";
    }
    b"line @, column ~: a state, proposition, mark or set that was not declared (numbers begin at 0).\n"
}

fn body(place: Place) -> &'static [u8]
    ensures { result.now ≡ bytes (pattern (Body 0 0) place) }
{
    if ends(place) {
        return b"state $ has no body.\n";
    }
    b"line @, column ~: state $ has a second body.\n"
}

fn ends(place: Place) -> bool
    ensures { result ≡ ends place }
{
    place.byte.is_none()
}

fn digit(place: Place) -> bool
    ensures { result ≡ digit place }
{
    match place.byte {
        Some(b) => (b'0' <= b) & (b <= b'9'),
        None => false,
    }
}

fn stands(place: Place, byte: u8) -> bool
    ensures { result ≡ seen (λ b. eqb b byte) place.byte }
{
    match place.byte {
        Some(b) => b == byte,
        None => false,
    }
}

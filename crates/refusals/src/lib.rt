// What is turned down, and document 01's number and values for it.
#![tactic(auto)]

ghost use Rattle.std.specs.Prelude.{◌≡◌};
ghost use Rattle.refusals.specs.Refused.{row, code_of};

// The rows of document 01's table "What is turned down", in its order; the second rows of 3 and 4 are cases of their own.
#[derive(Clone, Copy)]
pub enum Refusal {
    // A token that cannot continue the HOA form, at an offset.
    Form(usize),
    // More than the limits allow, at an offset.
    Size(usize),
    // An item twice or missing, two names alike, at an offset.
    Item(usize),
    // An automaton handed over as a value, whose acceptance is not Inf of all sets.
    OtherAcceptance,
    // A state, destination, proposition, mark or set that was not declared, at an offset.
    Undeclared(usize),
    // A value outside "The automaton", or a carried state with a field out of its range.
    Outside,
    // A state's body twice, or missing: offset, state.
    Body(usize, usize),
    // A second edge: state, letter.
    SecondEdge(usize, usize),
    // No edge: state, letter.
    NoEdge(usize, usize),
    // Candidate sizes out of range: n, m.
    Dimensions(usize, usize),
    // Solver text out of form, at an offset.
    SolverForm(usize),
    // A literal past the last variable, or one given twice, at an offset.
    Literal(usize),
    // No true step: state, letter.
    NoStep(usize, usize),
    // The tables differ: prefix length, loop length.
    Differ(usize, usize),
    // A lent buffer is short: needed, given.
    Short(usize, usize),
    // Different numbers of propositions: first, second.
    Propositions(usize, usize),
}

// A refusal as it is reported: document 01's number and its two values.
#[derive(Clone, Copy)]
pub struct Code {
    pub number: usize,
    pub first: usize,
    pub second: usize,
}

// A row of the table: its number and its two values.
fn row(number: usize, first: usize, second: usize) -> Code
    ensures { result ≡ row number first second }
{
    Code {
        number,
        first,
        second,
    }
}

impl From<Refusal> for Code {
    ghost from_gives = { λ refusal r. r ≡ code_of refusal };

    fn from(refusal: Refusal) -> Code {
        match refusal {
            Refusal::Form(offset) => row(1, offset, 0),
            Refusal::Size(offset) => row(2, offset, 0),
            Refusal::Item(offset) => row(3, offset, 0),
            Refusal::OtherAcceptance => row(3, 0, 0),
            Refusal::Undeclared(offset) => row(4, offset, 0),
            Refusal::Outside => row(4, 0, 0),
            Refusal::Body(offset, state) => row(5, offset, state),
            Refusal::SecondEdge(state, letter) => row(6, state, letter),
            Refusal::NoEdge(state, letter) => row(7, state, letter),
            Refusal::Dimensions(n, m) => row(8, n, m),
            Refusal::SolverForm(offset) => row(9, offset, 0),
            Refusal::Literal(offset) => row(10, offset, 0),
            Refusal::NoStep(state, letter) => row(11, state, letter),
            Refusal::Differ(prefix, cycle) => row(12, prefix, cycle),
            Refusal::Short(needed, given) => row(13, needed, given),
            Refusal::Propositions(first, second) => row(14, first, second),
        }
    }
}

impl Refusal {
    pub fn code(self) -> Code
        ensures { result ≡ code_of self }
    {
        Code::from(self)
    }
}

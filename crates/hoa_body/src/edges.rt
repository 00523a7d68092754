// An edge of the current state: its kind, and whether it is a second one.
ghost use Rattle.std.specs.Prelude.{◌<◌};
ghost use Rattle.hoa_body.specs.Answers.{Bounded};
ghost use Rattle.hoa_body.specs.Edges.{labelled, listed, TakesLabel, TakesListed, EdgeOf, FirstAnswer};

use crate::parts::Part;
use crate::{Current, Table};
use automaton::Automaton;
use bits::powers::power_of_two;
use bits::sets::{lowest, single};
use hoa_edges::{EdgeRead, edge, unlabelled};
use refusals::Refusal;

// Whether an edge with a label may stand here: no edge of the state was listed.
pub fn takes_label(current: Current) -> bool
    ensures { TakesLabel current result }
{
    current.listed == 0
}

// Whether an edge without a label may stand here: no edge of the state had one, and there is a letter left.
pub fn takes_listed(current: Current, letters: usize) -> bool
    ensures { TakesListed current letters result }
{
    !current.labelled && current.listed < letters
}

// Behind the `[` of an edge.
pub fn labelled_edge(
    text: &[u8],
    at: usize,
    opened: Automaton,
    table: Table,
    current: Current,
) -> Result<Part, Refusal>
    requires { Bounded opened × (current.state < 16) }
    ensures { EdgeOf labelled text.now at opened table current result }
{
    let read = edge(text, at, opened.states, opened.propositions, opened.sets)?;
    let counted = Current {
        labelled: true,
        ..current
    };
    first_edge(read, counted, opened, table)
}

// An edge without a label, for the next letter.
pub fn listed_edge(
    text: &[u8],
    at: usize,
    opened: Automaton,
    table: Table,
    current: Current,
) -> Result<Part, Refusal>
    requires { Bounded opened × (current.state < 16) × (current.listed < 16) }
    ensures { EdgeOf listed text.now at opened table current result }
{
    let read = unlabelled(text, at, opened.states, opened.sets, single(current.listed))?;
    let counted = Current {
        listed: current.listed + 1,
        ..current
    };
    first_edge(read, counted, opened, table)
}

// The edge that was read, unless it is the second for a letter, which is judged once the marks are read.
fn first_edge(
    edge: EdgeRead,
    counted: Current,
    opened: Automaton,
    table: Table,
) -> Result<Part, Refusal>
    requires { Bounded opened × (counted.state < 16) }
    ensures { FirstAnswer edge counted opened table result }
{
    let letters = power_of_two(opened.propositions);
    let second = lowest(edge.letters & table.given[counted.state], letters);
    if second < letters {
        return Err(Refusal::SecondEdge(counted.state, second));
    }
    Ok(Part::Edge { counted, edge })
}

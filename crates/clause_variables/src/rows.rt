// The rows of reference states between which a file of given sizes has path variables.
ghost use Rattle.std.specs.Prelude.{◌≡◌, true, ◌↔◌, ◌+◌, ◌≤◌, ◌<◌, get_or};
ghost use Rattle.clause_sizes.specs.Numbers.{before, in_row};
ghost use Rattle.clause_variables.specs.Kept.{RowOf};

use automaton::Automaton;
use automaton::states::ReferenceState;
use bits::sets::below;
use clause_sizes::Sizes;

// The states that u has path variables to.
pub fn row_set(z: Sizes, u: ReferenceState) -> u16
    requires { u.0 < 16 }
    ensures { result ≡ get_or z.paths.sets u.0 0 }
{
    z.paths.sets[u.0]
}

// A row: its set of states, how many it holds, and how many the rows before it hold.
#[derive(Clone, Copy)]
pub struct Row {
    pub set: u16,
    pub size: usize,
    pub before: usize,
}

pub fn row_of(z: Sizes, u: ReferenceState) -> Row
    requires { u.0 < 16 }
    ensures { RowOf z u.0 result }
{
    let set = row_set(z, u);
    Row {
        set,
        size: below(set, Automaton::STATES),
        before: usize::from(z.paths.before[u.0]),
    }
}

// Whether the row of u lies among the pairs.
pub fn within(z: Sizes, u: ReferenceState) -> bool
    requires { u.0 < 16 }
    ensures { (result ≡ true) ↔ (before z u.0 + in_row z u.0 ≤ z.paths.pairs) }
{
    let row = row_of(z, u);
    row.before + row.size <= z.paths.pairs
}

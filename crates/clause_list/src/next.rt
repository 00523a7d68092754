// The next clause from a position on.
ghost use Rattle.std.specs.Prelude.{◌≤◌, ◌<◌, length};
ghost use Rattle.clause_sizes.specs.Numbers.{number_of};
ghost use Rattle.clause_list.specs.Tables.{task_of, Tables};
ghost use Rattle.clause_indices.specs.Indices.{ExtentOf, clause_room};
ghost use Rattle.clause_list.specs.Next.{next_clause};
ghost use Rattle.clause_list.specs.Handing.{Hands};

use crate::gaps::after;
use crate::position::clause_at;
use automaton::Automaton;
use automaton::states::ReferenceState;
use clause_indices::extent::Extent;
use clause_sizes::Sizes;

// How many literals the clause has, or None where there is no clause any more; and the position to go on from.
#[derive(Clone, Copy)]
pub struct Next {
    pub length: Option<usize>,
    pub position: usize,
}

// Writes the first clause at position `from` or after it.
pub fn next_clause(
    z: Sizes,
    g: Extent,
    start: ReferenceState,
    destinations: &[u8; Automaton::CELLS],
    marks: &[u8; Automaton::CELLS],
    from: usize,
    out: &mut [i32],
) -> Next
    requires tables { Tables z destinations.now marks.now × (start.0 < z.reference.states) }
    requires extent_of { ExtentOf z g × (clause_room ≤ length out.old) }
    ensures { Hands (next_clause (task_of z start.0 destinations.now marks.now) (number_of z) from) out.old out.new result }
{
    let mut x = from;
    while x < g.all {
        if let Some(length) = clause_at(z, g, start, destinations, marks, x, out) {
            return Next {
                length: Some(length),
                position: x + 1,
            };
        }
        x = after(z, g, destinations, x);
    }
    Next {
        length: None,
        position: x,
    }
}

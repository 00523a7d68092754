// The clauses of a file by position: the next clause from a position on. Where a list has no paths between two reference states, the positions of
// their clauses are passed over as a whole. The callers of `next_clause` have tested the sizes and the
// tables.
#![tactic(auto)]

mod digits;
mod gaps;
mod groups;
pub mod indices;
pub mod next;
mod position;

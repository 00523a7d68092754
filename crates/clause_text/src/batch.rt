// As many lines as fit. The reference has been tested: nothing here looks at it again.
ghost use Rattle.std.specs.Prelude.{◌≤◌, ◌<◌, length};
ghost use Rattle.clause_sizes.specs.Numbers.{number_of};
ghost use Rattle.clause_list.specs.Tables.{task_of, Tables};
ghost use Rattle.clause_indices.specs.Indices.{ExtentOf};
ghost use Rattle.clause_list.specs.Next.{next_clause};
ghost use Rattle.clause_text.specs.Blocks.{Texts};
ghost use Rattle.clause_text.specs.Filling.{Filling};
ghost use Rattle.clause_text.specs.NextLine.{NextLine, Further};

use crate::block::block_lines;
use crate::keeping::{Store, Stores};
use automaton::Automaton;
use automaton::states::ReferenceState;
use clause_indices::extent::Extent;
use clause_line::LINE;
use clause_list::next::next_clause;
use clause_sizes::Sizes;
use clause_step::CLAUSE;
use clause_words::write_line;

// Where the text ends, and the position to go on from.
#[derive(Clone, Copy)]
pub struct Filled {
    pub end: usize,
    pub position: usize,
}

// Writes line after line from the start of the buffer, as many as fit.
pub fn fill(
    z: Sizes,
    g: Extent,
    start: ReferenceState,
    destinations: &[u8; Automaton::CELLS],
    marks: &[u8; Automaton::CELLS],
    from: usize,
    text: &mut [u8],
) -> Filled
    requires tables { Tables z destinations.now marks.now × (start.0 < z.reference.states) }
    requires extent_of { ExtentOf z g }
    ensures { Filling (task_of z start.0 destinations.now marks.now) (number_of z) from text.old text.new result.end result.position }
{
    let mut x = from;
    let mut at: usize = 0;
    let mut heads = Store::new();
    let mut middles = Store::new();
    let mut lasts = Store::new();
    let mut stores = Stores {
        heads: &mut heads,
        middles: &mut middles,
        lasts: &mut lasts,
    };
    loop {
        let next = more_lines(z, g, start, destinations, marks, x, &mut stores, text, at);
        if (next.end == at) & (next.position == x) {
            return Filled {
                end: at,
                position: x,
            };
        }
        x = next.position;
        at = next.end;
    }
}

// Writes one line more, where there is one and it fits, or several lines of group 3, or goes on past positions without a clause.
fn more_lines(
    z: Sizes,
    g: Extent,
    start: ReferenceState,
    destinations: &[u8; Automaton::CELLS],
    marks: &[u8; Automaton::CELLS],
    from: usize,
    stores: &mut Stores<'_>,
    text: &mut [u8],
    at: usize,
) -> Filled
    requires tables { Tables z destinations.now marks.now × (start.0 < z.reference.states) }
    requires extent_of { ExtentOf z g × (at ≤ length text.old) }
    requires texts { Texts z stores.old }
    ensures texts_2 { Texts z stores.new }
    ensures further { Further (task_of z start.0 destinations.now marks.now) (number_of z) from text.old at text.new result.end result.position }
{
    let room = text.len() - at;
    let before = g.first + g.second;
    if (room < LINE) | (from < before) | (from >= before + g.third) {
        return next_line(z, g, start, destinations, marks, from, text, at);
    }
    let filled = block_lines(z, destinations, marks, from - before, stores, text, at);
    Filled {
        end: filled.end,
        position: before + filled.position,
    }
}

// Writes the line of the next clause. A line that does not fit is not written, and the position stays.
fn next_line(
    z: Sizes,
    g: Extent,
    start: ReferenceState,
    destinations: &[u8; Automaton::CELLS],
    marks: &[u8; Automaton::CELLS],
    from: usize,
    text: &mut [u8],
    at: usize,
) -> Filled
    requires tables { Tables z destinations.now marks.now × (start.0 < z.reference.states) }
    requires extent_of { ExtentOf z g }
    ensures { NextLine (next_clause (task_of z start.0 destinations.now marks.now) (number_of z) from) from text.old at text.new result }
{
    let mut clause = [0i32; CLAUSE];
    let next = next_clause(z, g, start, destinations, marks, from, &mut clause);
    let Some(count) = next.length else {
        return Filled {
            end: at,
            position: next.position,
        };
    };
    let end = write_line(&clause[..count], text, at);
    if end == at {
        return Filled {
            end,
            position: from,
        };
    }
    Filled {
        end,
        position: next.position,
    }
}

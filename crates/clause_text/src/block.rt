// The lines of group 3 by blocks: over a block q, p, t and u stay, so that the numbers of the first paths are computed once.
ghost use Rattle.std.specs.Prelude.{◌≡◌, ◌+◌, ◌≤◌, ◌<◌, length};
ghost use Rattle.decimal.specs.Wrote.{Wrote};
ghost use Rattle.clause_sizes.specs.Sizes.{Fitting};
ghost use Rattle.clause_list.specs.Tables.{Tables};
ghost use Rattle.clause_sizes.specs.Numbers.{InFile};
ghost use Rattle.clause_indices.specs.Indices.{Within, path_at, extensions, extension_indices};
ghost use Rattle.clause_words.specs.Text.{line_text};
ghost use Rattle.clause_variables.specs.FirstPaths.{FirstPaths};
ghost use Rattle.clause_text.specs.Blocks.{line_of, head_number, last_number, Firsts, NumberAt, Texts, ExtensionsShort, Extensions};

use crate::batch::Filled;
use crate::keeping::Stores;
use automaton::Automaton;
use automaton::states::ReferenceState;
use clause_indices::{Indices, entry};
use clause_line::LINE;
use clause_list::indices::extension_indices;
use clause_order::following;
use clause_order::passing::{past_letter, past_state};
use clause_sizes::Sizes;
use clause_variables::first_paths;

// Writes the lines from position `from` of group 3 on to the end of its block, as long as there are 80 bytes for each. Where the list has
// no clause it goes on to the next letter or state.
pub fn block_lines(
    z: Sizes,
    destinations: &[u8; Automaton::CELLS],
    marks: &[u8; Automaton::CELLS],
    from: usize,
    stores: &mut Stores<'_>,
    text: &mut [u8],
    at: usize,
) -> Filled
    requires tables { Tables z destinations.now marks.now }
    requires extensions_short { ExtensionsShort z destinations.now marks.now }
    requires from_bound { (from < extensions z) × (at + 80 ≤ length text.old) }
    requires texts { Texts z stores.old }
    ensures extensions { Extensions z destinations.now marks.now from text.old at text.new result.end result.position }
    ensures from_lt_position { from < result.position }
    ensures texts_2 { Texts z stores.new }
{
    let x = extension_indices(z, from);
    let mut shorter = [0usize; Automaton::STATES];
    first_paths(z, x.q, x.u, x.p, &mut shorter);
    let mut longer = [0usize; Automaton::STATES];
    first_paths(z, x.q, x.u, x.t, &mut longer);
    lines_from(
        z,
        &shorter,
        &longer,
        destinations,
        marks,
        x,
        from,
        stores,
        text,
        at,
    )
}

// `shorter` and `longer` have the numbers of the first paths from q and u to p and to t.
fn lines_from(
    z: Sizes,
    shorter: &[usize; Automaton::STATES],
    longer: &[usize; Automaton::STATES],
    destinations: &[u8; Automaton::CELLS],
    marks: &[u8; Automaton::CELLS],
    first: Indices,
    from: usize,
    stores: &mut Stores<'_>,
    text: &mut [u8],
    at: usize,
) -> Filled
    requires tables { Tables z destinations.now marks.now }
    requires extensions_short { ExtensionsShort z destinations.now marks.now }
    requires from_bound { (from < extensions z) × (first ≡ extension_indices z from) × (at + 80 ≤ length text.old) }
    requires first_paths { FirstPaths z first.q.0 first.u.0 first.p.0 shorter.now × FirstPaths z first.q.0 first.u.0 first.t.0 longer.now }
    requires texts { Texts z stores.old }
    ensures extensions { Extensions z destinations.now marks.now from text.old at text.new result.end result.position }
    ensures from_lt_position { from < result.position }
    ensures texts_2 { Texts z stores.new }
{
    let mut x = first;
    let mut position = from;
    let mut to = at;
    loop {
        let v = x.v;
        if v.0 >= z.reference.states {
            return Filled { end: to, position };
        }
        if text.len() - to < LINE {
            return Filled { end: to, position };
        }
        let head = number_at(shorter, v);
        if head == 0 {
            let next = past_state(z, x, position);
            x = next.indices;
            position = next.position;
            continue;
        }
        let w = ReferenceState(entry(destinations, v, x.l));
        let last = number_at(longer, w);
        if last == 0 {
            let next = past_letter(z, x, position);
            x = next.indices;
            position = next.position;
            continue;
        }
        let f = entry(marks, v, x.l);
        to = extension_line(z, x, head, last, f, stores, text, to);
        position += 1;
        x = following(z, x);
    }
}

// The number for v, or 0.
fn number_at(numbers: &[usize; Automaton::STATES], v: ReferenceState) -> usize
    ensures { NumberAt numbers.now v.0 result }
{
    let at = v.0;
    if at >= Automaton::STATES {
        return 0;
    }
    numbers[at]
}

// The line of group 3's clause for x and the marks f of the reference's step from v by l, where `head` and `last` are the numbers of the first
// paths to v and to where it leads.
fn extension_line(
    z: Sizes,
    x: Indices,
    head: usize,
    last: usize,
    f: usize,
    stores: &mut Stores<'_>,
    text: &mut [u8],
    at: usize,
) -> usize
    requires fitting { Fitting z × Within z x × InFile z (path_at x) × Firsts z head last f }
    requires texts { Texts z stores.old }
    requires f_len_bound { (length (line_text (line_of z x (head_number z x head) (last_number z x last f))) ≤ 80) × (at + 80 ≤ length text.old) }
    ensures texts_2 { Texts z stores.new }
    ensures wrote { Wrote text.old at (line_text (line_of z x (head_number z x head) (last_number z x last f))) text.new result }
{
    let other = z.reference.subsets;
    let first = head + (x.i * other + x.j);
    let a = stores.heads.write_literal(true, first, text, at);
    let b = stores.middles.write_middle(z, x, text, a);
    let second = last + ((x.i | x.k) * other + (x.j | f));
    let c = stores.lasts.write_literal(false, second, text, b);
    text[c] = b'0';
    text[c + 1] = b'\n';
    c + 2
}

// The shortest loop at a node that is a hit, and of the shortest the one that is smaller at the first difference.
ghost use Rattle.std.specs.Prelude.{◌^◌, ◌<◌, IfSome};
ghost use Rattle.std.specs.Option.{unwrap_or};
ghost use Rattle.compare_shortest.specs.Workspace.{Ready};
ghost use Rattle.compare_shortest.specs.ClosestLoop.{LoopLength, LoopWritten};

use crate::{MARKED, places, search, word};

// The length of the loop, if it has at most `bound` letters.
pub fn loop_length(
    table: &[u16],
    hits: &[u8],
    seen: &mut [u8],
    places: &mut [u64],
    letters: usize,
    node: u16,
    bound: usize,
) -> Option<usize>
    requires { Ready table.now hits.now seen.old places.old letters }
    ensures loop_length { LoopLength table.now hits.now letters node bound (unwrap_or result 0) }
    ensures some { IfSome result (λ l. (0 < l) × (l < 2 ^ 32)) }
    ensures ready { Ready table.now hits.now seen.new places.new letters }
{
    let stop = search::search(
        table,
        hits,
        seen,
        places,
        letters,
        node,
        Some(node / MARKED),
        bound,
    );
    let hit = stop.hit?;
    Some(places::depth(places[hit]))
}

// The same, and the loop itself in the front of `out`, if it fits there.
pub fn write_loop(
    table: &[u16],
    hits: &[u8],
    seen: &mut [u8],
    places: &mut [u64],
    letters: usize,
    node: u16,
    out: &mut [u8],
) -> Option<usize>
    requires { Ready table.now hits.now seen.old places.old letters }
    ensures written { LoopWritten table.now hits.now letters node out.old out.new (unwrap_or result 0) }
    ensures some { IfSome result (λ l. 0 < l) }
{
    let stop = search::search(
        table,
        hits,
        seen,
        places,
        letters,
        node,
        Some(node / MARKED),
        out.len(),
    );
    let hit = stop.hit?;
    let depth = places::depth(places[hit]);
    word::write_word(places, hit, depth, out);
    Some(depth)
}

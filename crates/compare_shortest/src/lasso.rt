// The first word to a node and loop there that is a hit, in a graph given by tables.
ghost use Rattle.std.specs.Prelude.{◌≡◌, length};
ghost use Rattle.compare_shortest.specs.Answer.{Within, Answer};
ghost use Rattle.compare_shortest.specs.Graph.{HitLasso};
ghost use Rattle.compare_shortest.specs.Sizes.{place_count, step_count};
ghost use Rattle.compare_shortest.specs.Workspace.{Ready};

use crate::{Verdict, choice, closest, places, search, word};

// The word to the node goes by the table `plain`, and the loop by `table`. It is written into `prefix` and `cycle`, and only words
// that fit them are looked for. `seen`, `outer` and `inner` are working space.
pub fn first_lasso(
    plain: &[u16],
    table: &[u16],
    hits: &[u8],
    seen: &mut [u8],
    outer: &mut [u64],
    inner: &mut [u64],
    letters: usize,
    root: u16,
    prefix: &mut [u8],
    cycle: &mut [u8],
) -> Verdict
    requires { Ready plain.now hits.now seen.old outer.old letters × (length table.now ≡ step_count) × (length inner.old ≡ place_count) }
    ensures { Answer (Within (length prefix.old) (length cycle.old) (HitLasso plain.now table.now hits.now letters root))
        prefix.old prefix.new cycle.old cycle.new result }
{
    let most = prefix.len();
    let bound = cycle.len();
    let reached = search::search(plain, hits, seen, outer, letters, root, None, most);
    let best = choice::choose(
        table,
        hits,
        seen,
        inner,
        outer,
        reached.count,
        letters,
        bound,
    );
    let Some(best) = best else {
        return Verdict::Same;
    };
    let place = outer[best.place];
    let written = closest::write_loop(
        table,
        hits,
        seen,
        inner,
        letters,
        places::node(place),
        cycle,
    );
    let l = written.unwrap();
    let p = places::depth(place);
    word::write_word(outer, best.place, p, prefix);
    Verdict::Differ(p, l)
}

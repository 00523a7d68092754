// Of all places of the outer search, the one at which a loop makes the first word.
ghost use Rattle.std.specs.Prelude.{◌≡◌, ◌^◌, ◌<◌, ◌≤◌, length, MatchOption};
ghost use Rattle.compare_shortest.specs.Workspace.{Ready};
ghost use Rattle.compare_shortest.specs.Choice.{Room};
ghost use Rattle.compare_shortest.specs.Chosen.{Best};

use crate::{closest, places};

// A place, and the length of the word that leads there and of the shortest loop there, together.
#[derive(Clone, Copy)]
pub struct Choice {
    pub place: usize,
    pub total: usize,
}

// The first of `count` places with the least total, if there is a loop of at most `bound` letters that is a hit.
pub fn choose(
    table: &[u16],
    hits: &[u8],
    seen: &mut [u8],
    inner: &mut [u64],
    outer: &[u64],
    count: usize,
    letters: usize,
    bound: usize,
) -> Option<Choice>
    requires { Ready table.now hits.now seen.old inner.old letters × (count ≤ length outer.now) }
    ensures best { Best table.now hits.now outer.now letters bound count count result }
    ensures ready { Ready table.now hits.now seen.new inner.new letters }
{
    let mut best = None;
    for i in 0..count {
        let place = outer[i];
        let depth = places::depth(place);
        let most = room(best, depth, bound);
        let least = closest::loop_length(
            table,
            hits,
            seen,
            inner,
            letters,
            places::node(place),
            most,
        );
        if let Some(least) = least {
            best = Some(Choice {
                place: i,
                total: depth + least,
            });
        }
    }
    best
}

// How long a loop at this depth may be to make a smaller total, and at most `bound`.
pub fn room(best: Option<Choice>, depth: usize, bound: usize) -> usize
    requires { depth < 2 ^ 32 }
    ensures { MatchOption best (result ≡ bound) (λ b. Room b.total depth bound result) }
{
    match best {
        Some(best) => best.total.saturating_sub(depth + 1).min(bound),
        None => bound,
    }
}

// Breadth-first search in a graph that a table gives, until a hit is found or no word of the allowed length leads to a new node.
ghost use Rattle.std.specs.Prelude.{◌≡◌, ◌↔◌, true, ℕ, ◌+◌, ◌-◌, ◌*◌, ◌^◌, ◌<◌, ◌≤◌, length, set, IfSome};
ghost use Rattle.std.specs.Option.{unwrap_or};
ghost use Rattle.compare_shortest.specs.Graph.{at, succ, Hit};
ghost use Rattle.compare_shortest.specs.Packing.{pack, node_of};
ghost use Rattle.compare_shortest.specs.Sizes.{pair_count, hit_count, step_count, node_count};
ghost use Rattle.compare_shortest.specs.Seen.{Clear, SeenAt};
ghost use Rattle.compare_shortest.specs.Workspace.{Ready};
ghost use Rattle.compare_shortest.specs.State.{State};
ghost use Rattle.compare_shortest.specs.FirstHit.{First};
ghost use Rattle.compare_shortest.specs.Explored.{Explored, Searched};

use crate::{HITS, MARKED, places};
use automaton::Automaton;

// Where a search stops: the first place of a hit, if there is one, and the number of places.
#[derive(Clone, Copy)]
pub struct Stop {
    pub hit: Option<usize>,
    pub count: usize,
}

// The search from the root by words of at most `bound` letters, which stops at the first hit with the given pair. With none all nodes
// are found.
pub fn search(
    table: &[u16],
    hits: &[u8],
    seen: &mut [u8],
    places: &mut [u64],
    letters: usize,
    root: u16,
    pair: Option<u16>,
    bound: usize,
) -> Stop
    requires { Ready table.now hits.now seen.old places.old letters }
    ensures searched { Searched table.now hits.now places.new letters root (unwrap_or pair pair_count) bound result.count (unwrap_or result.hit result.count) }
    ensures within { IfSome result.hit (λ k. k < result.count) }
    ensures ready { Ready table.now hits.now seen.new places.new letters }
{
    places[0] = root as u64;
    let stop = explore(table, hits, seen, places, letters, pair, bound);
    forget(seen, places, stop.count);
    stop
}

// The search from the node at the place 0.
pub fn explore(
    table: &[u16],
    hits: &[u8],
    seen: &mut [u8],
    places: &mut [u64],
    letters: usize,
    pair: Option<u16>,
    bound: usize,
) -> Stop
    requires state { State table.now seen.old places.old letters (node_of (at places.old 0)) 1 0 0 }
    requires hits_len { length hits.now ≡ hit_count }
    ensures explored { Explored table.now hits.now seen.new places.new letters (node_of (at places.old 0)) (unwrap_or pair pair_count) bound result.count
        (unwrap_or result.hit result.count) }
    ensures within { IfSome result.hit (λ k. k < result.count) }
{
    let mut n = 1;
    let mut here = 0;
    while here < n {
        if bound <= places::depth(places[here]) {
            return Stop {
                hit: None,
                count: n,
            };
        }
        let count = expand(table, seen, places, letters, here, n);
        if let Some(hit) = first_hit(places, hits, pair, n, count) {
            return Stop {
                hit: Some(hit),
                count,
            };
        }
        n = count;
        here += 1;
    }
    Stop {
        hit: None,
        count: n,
    }
}

// All the edges from the place `here` are followed; the number of places then.
pub fn expand(
    table: &[u16],
    seen: &mut [u8],
    places: &mut [u64],
    letters: usize,
    here: usize,
    count: usize,
) -> usize
    requires state { State table.now seen.old places.old letters (node_of (at places.old 0)) count here 0 }
    requires here_lt_count { here < count }
    ensures state_2 { State table.now seen.new places.new letters (node_of (at places.old 0)) result (here + 1) 0 }
    ensures lower_bound { (count ≤ result) × ((k : ℕ) → k < count → at places.new k ≡ at places.old k) }
{
    let place = places[here];
    let node = places::node(place);
    let depth = places::depth(place) + 1;
    let mut n = count;
    for letter in 0..letters {
        let next = successor(table, node, letter);
        n = enter(
            seen,
            places,
            next,
            here * Automaton::LETTERS + letter,
            depth,
            n,
        );
    }
    n
}

// The node that a letter leads to, with the marks of the step added.
#[tactic(auto, unfolding(crate::specs::Graph::succ))]
pub fn successor(table: &[u16], node: u16, letter: usize) -> u16
    requires { (length table.now ≡ step_count) × (letter < 16) }
    ensures { result ≡ succ table.now node letter }
{
    table[node as usize / HITS * Automaton::LETTERS + letter] | (node % MARKED)
}

// The node stands at the place n, which counts if the node is new; the number of places then. There is no branch, since whether
// a node is new cannot be foreseen.
pub fn enter(
    seen: &mut [u8],
    places: &mut [u64],
    node: u16,
    edge: usize,
    depth: usize,
    n: usize,
) -> usize
    requires seen_len { (length seen.old ≡ node_count) × (n < length places.old) × (at seen.old node ≤ 1) }
    requires edge_bound { (edge < 2 ^ 32) × (depth < 2 ^ 20) × (n < 2 ^ 32) }
    ensures { (seen.new ≡ set seen.old node 1)
        × (places.new ≡ set places.old n (pack node edge depth)) × (result ≡ n + 1 - at seen.old node) }
{
    let old = seen[node as usize] as usize;
    seen[node as usize] = 1;
    places[n] = places::place(node, edge, depth);
    n + 1 - old
}

// The first place of a hit from `start` on, if there is one before `end`; none where no pair is given.
pub fn first_hit(
    places: &[u64],
    hits: &[u8],
    pair: Option<u16>,
    start: usize,
    end: usize,
) -> Option<usize>
    requires { (start ≤ end) × (end ≤ length places.now) × (length hits.now ≡ hit_count) }
    ensures first { First places.now hits.now (unwrap_or pair pair_count) start end (unwrap_or result end) }
    ensures within { IfSome result (λ k. k < end) }
{
    let pair = pair?;
    for k in start..end {
        if is_hit(hits, pair, places::node(places[k])) {
            return Some(k);
        }
    }
    None
}

// Whether a node has the pair, and marks at which the table of hits is not 0.
pub fn is_hit(hits: &[u8], pair: u16, node: u16) -> bool
    requires { length hits.now ≡ hit_count }
    ensures { (result ≡ true) ↔ Hit hits.now pair node }
{
    node / MARKED == pair && hits[(node % MARKED) as usize] != 0
}

// The nodes at the places from 1 on count as not seen again.
pub fn forget(seen: &mut [u8], places: &[u64], count: usize)
    requires { SeenAt seen.old places.now 1 count × (count ≤ length places.now) }
    ensures { Clear seen.new }
{
    for k in 1..count {
        let node = places::node(places[k]);
        seen[node as usize] = 0;
    }
}

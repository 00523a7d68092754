// A place of a search as one number: its depth, the edge by which it was found, and its node.
ghost use Rattle.std.specs.Prelude.{◌≡◌, ◌^◌, ◌<◌};
ghost use Rattle.compare_shortest.specs.Packing.{pack, node_of, edge_of, depth_of};

use automaton::Automaton;

const NODES: u64 = crate::NODES as u64;

// Edges: the place that an edge leaves, and its letter.
const EDGES: u64 = (crate::NODES * Automaton::LETTERS) as u64;

pub fn place(node: u16, edge: usize, depth: usize) -> u64
    requires { (edge < 2 ^ 32) × (depth < 2 ^ 20) }
    ensures { result ≡ pack node edge depth }
{
    (depth as u64 * EDGES + edge as u64) * NODES + node as u64
}

pub fn node(place: u64) -> u16
    ensures { result ≡ node_of place }
{
    (place % NODES) as u16
}

pub fn edge(place: u64) -> usize
    ensures { result ≡ edge_of place }
{
    (place / NODES % EDGES) as usize
}

pub fn depth(place: u64) -> usize
    ensures { result ≡ depth_of place }
{
    (place / NODES / EDGES) as usize
}

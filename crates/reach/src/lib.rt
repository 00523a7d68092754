// The strongly connected components of an automaton, as sets of states.
#![tactic(auto)]

ghost use Rattle.std.specs.Prelude.{◌≡◌, ◌*◌, ◌≤◌, replicate};
ghost use Rattle.reach.specs.Rows.{ComponentsIfAny};
ghost use Rattle.reach.specs.Mutual.{Mutual};

use automaton::Automaton;
use bits::sets::{has, single};

mod closure;

// Row u has u alone: a state reaches itself by no step.
const ALONE: [u16; Automaton::STATES] = [
    1, 2, 4, 8, 16, 32, 64, 128, 256, 512, 1024, 2048, 4096, 8192, 16384, 32768,
];

// For each state the states that lie in one component with it; no states where the value lies outside "The automaton".
pub fn components(a: Automaton) -> [u16; Automaton::STATES]
    ensures { ComponentsIfAny a result }
{
    let mut rows = [0u16; Automaton::STATES];
    if !a.valid() {
        return rows;
    }
    let mut reached = ALONE;
    closure::add_steps(&mut reached, a);
    closure::close(&mut reached, a.states);
    add_mutual(&mut rows, &reached, a.states);
    rows
}

// Adds v to row u where each is reached from the other. All pairs stand one after another, u and v at u * STATES + v.
fn add_mutual(
    rows: &mut [u16; Automaton::STATES],
    reached: &[u16; Automaton::STATES],
    states: usize,
)
    requires { (states ≤ 16) × (rows.old ≡ replicate 16 0) }
    ensures { Mutual reached.now (states * 16) rows.new }
{
    for i in 0..states * Automaton::STATES {
        let u = i / Automaton::STATES;
        let v = i % Automaton::STATES;
        let both = has(reached[u], v) & has(reached[v], u);
        rows[u] = closure::joined(rows[u], single(v), both);
    }
}

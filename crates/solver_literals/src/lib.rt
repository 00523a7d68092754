// The literals that a solver text gives: which are turned down, and the table of those that are kept.
#![tactic(auto)]

ghost use Rattle.std.specs.Prelude.{◌≡◌, ◌≤◌, ◌<◌, ◌^◌, nat_abs};
ghost use Rattle.solver_scan.specs.SolverText.{literal_of};
ghost use Rattle.solver_literals.specs.Giving.{Given, mark_of};
ghost use Rattle.solver_literals.specs.Literals.{Placed};

use automaton::Automaton;

// The step and mark variables of the largest file.
pub const VARIABLES: usize = Automaton::CANDIDATE_STATES
    * Automaton::CANDIDATE_STATES
    * Automaton::LETTERS
    * (Automaton::SETS + 1);

// The table has an entry for each, by its number; there is no variable 0.
pub const SLOTS: usize = VARIABLES + 1;

// Whether nothing speaks against the literal of the variable v: v is at most `last`, and if it is at most `kept`, it is not given
// yet, and has its entry now.
pub fn give(minus: bool, v: u32, named: &mut [u8; SLOTS], last: u32, kept: u32) -> bool
    ensures { Given last kept (literal_of minus v) named.old result named.new }
{
    if last < v {
        return false;
    }
    if kept < v {
        return true;
    }
    if VARIABLES < v as usize {
        return true;
    }
    place(literal_of(minus, v), named)
}

// A literal is the variable, or its negative.
fn literal_of(minus: bool, v: u32) -> i32
    requires { v < 2 ^ 31 }
    ensures { result ≡ literal_of minus v }
{
    if minus { -(v as i32) } else { v as i32 }
}

fn place(literal: i32, named: &mut [u8; SLOTS]) -> bool
    requires { nat_abs literal ≤ 5120 }
    ensures { Placed literal named.old result named.new }
{
    let i = literal.unsigned_abs() as usize;
    if named[i] == 0 {
        named[i] = mark(literal);
        return true;
    }
    false
}

// 1 for true, 2 for false.
fn mark(literal: i32) -> u8
    ensures { result ≡ mark_of literal }
{
    if literal < 0 { 2 } else { 1 }
}

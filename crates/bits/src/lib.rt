// Numbers as sets: the sets of letters, states and marks that an automaton's tables and labels are about.
#![tactic(auto)]

pub mod powers;
pub mod sets;

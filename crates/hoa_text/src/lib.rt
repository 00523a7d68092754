// The text of an automaton in HOA: definitions and laws in specs/, and no function.
#![tactic(auto)]

// The meaning of automata: definitions and laws in specs/, and no function.
#![tactic(auto)]

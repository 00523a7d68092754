// The clause file and the encoding theorem: definitions and laws in specs/, and no function.
#![tactic(auto)]

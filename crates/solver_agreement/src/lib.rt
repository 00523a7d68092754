// On whole texts and on pieces the reader says what the definition of solver text says: laws in specs/, and no function.
#![tactic(auto)]

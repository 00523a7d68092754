// Document 01's known decks that are marked P, one table under one theorem: specs/, and no function.
#![tactic(auto)]

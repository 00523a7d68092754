// Document 01's demands, each stated once and proved from the contracts of the crates below: specs/, and no function.
#![tactic(auto)]

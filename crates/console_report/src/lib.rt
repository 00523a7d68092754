// The lines that the programs print beside HOA text and clauses.
#![tactic(auto)]

pub mod lasso;
pub mod lines;
mod parts;

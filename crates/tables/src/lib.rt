// What the refinement does to its table, row by row: cutting a row by its target, and new rows.
// Internal: serves sister crates; a function may ask what its callers have made sure of.
#![tactic(auto)]

pub mod cutting;
pub mod growth;

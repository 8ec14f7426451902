// One pass of the refinement over the rows of its table: an action of a row, the turn of a row, and the turns of all rows that have a flag up.
// Internal: serves sister crates; a function may ask what its callers have made sure of.
#![tactic(auto)]

pub mod steps;
pub mod sweep;

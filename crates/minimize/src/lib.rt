// From an accepted sheet to its blocks: representatives with shrinking boxes, in flat arrays that the caller lends.
// Internal: serves sister crates; a function may ask what its callers have made sure of.
#![tactic(auto)]

pub mod table;

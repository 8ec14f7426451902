// The form of a sheet (document 01, "Turned back", 1 to 4): header, counts, length, and the values that its fields may have.
// Internal: serves sister crates; a function may ask what its callers have made sure of.
#![tactic(auto)]

pub mod header;
pub mod limits;

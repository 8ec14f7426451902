// The form of a chart after its header (document 01, "Turned back", 4, 12 and 13): the values that its fields may have, the numbering of its
// blocks, and which actions blocks of one label bar.
// Internal: serves sister crates; a function may ask what its callers have made sure of.
#![tactic(auto)]

pub mod bars;
pub mod limits;
pub mod numbering;

// The rows of the refinement's table, in flat arrays that the caller lends: reading and storing a row, which row has a configuration, flags,
// sources and depths of rows.
// Internal: serves sister crates; a function may ask what its callers have made sure of.
#![tactic(auto)]

pub mod depths;
pub mod marks;
pub mod rows;
pub mod search;
pub mod sources;
pub mod table;

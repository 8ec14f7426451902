// The bytes of a chart (document 01, "The chart, mark BCH"): its header, its fields, one action.
// Internal: serves sister crates; a function may ask what its callers have made sure of.
#![tactic(auto)]

pub mod acting;
pub mod chart;
pub mod header;

pub use chart::Chart;

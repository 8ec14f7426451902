// Whole numbers of 64 bits: the inverse of a carry rule by cases, ranges, little-endian numbers in bytes. What they mean stands in integers.
// Internal: serves sister crates; a function may ask what its callers have made sure of.
#![tactic(auto)]

pub mod bytes;
pub mod division;
pub mod ranges;

// Whole numbers: the inverse of a carry rule by cases, ranges, little-endian numbers in bytes. Definitions and laws; the code is in machine_integers.
// Internal: serves sister crates; a function may ask what its callers have made sure of.
#![tactic(auto)]

use std::fmt;

// The whole numbers from low to high, both included; none where low is above high.
#[derive(Clone, Copy, Debug, PartialEq, Eq, Hash)]
pub struct Range {
    pub low: i64,
    pub high: i64,
}

impl fmt::Display for Range {
    fn fmt<W: fmt::Write>(&self, f: &mut fmt::Formatter<W>) -> fmt::Result {
        write!(f, "{}..{}", self.low, self.high)
    }
}

// The bytes of a sheet of either version (document 01, "The sheet, mark MSH"; document 02, U4), read into structs of three counters; and what
// is done with these: membership, landing a configuration, cutting a box.
// Internal: serves sister crates; a function may ask what its callers have made sure of.
#![tactic(auto)]

use integers::Range;
use model::Rule;

pub mod cutting;
pub mod fields;
pub mod sheet;
pub mod space;

pub use sheet::Sheet;

// What decides where the fields of a sheet stand: the three counts V, A and R, and how many bytes a bound takes.
#[derive(Clone, Copy, Debug, PartialEq, Eq, Hash)]
pub struct Shape {
    pub counters: usize,
    pub actions: usize,
    pub regions: usize,
    pub width: usize,
}

// A range for each counter. One that the sheet lacks has 0..0.
#[derive(Clone, Copy, Debug, PartialEq, Eq, Hash)]
pub struct Ranges {
    pub first: Range,
    pub second: Range,
    pub third: Range,
}

// The box of a region: its state, and a range for each counter.
#[derive(Clone, Copy, Debug, PartialEq, Eq, Hash)]
pub struct RegionBox {
    pub state: u8,
    pub ranges: Ranges,
}

// A value for each counter. One that the sheet lacks has 0.
#[derive(Clone, Copy, Debug, PartialEq, Eq, Hash)]
pub struct Values {
    pub first: i64,
    pub second: i64,
    pub third: i64,
}

// A configuration: a state, and a value for each counter.
#[derive(Clone, Copy, Debug, PartialEq, Eq, Hash)]
pub struct Config {
    pub state: u8,
    pub values: Values,
}

// A rule for each counter. One that the sheet lacks is set to 0.
#[derive(Clone, Copy, Debug, PartialEq, Eq, Hash)]
pub struct Rules {
    pub first: Rule,
    pub second: Rule,
    pub third: Rule,
}

// What an action that is open in a region does there: the state that it leads to, and its rules. A barred one has none.
#[derive(Clone, Copy, Debug, PartialEq, Eq, Hash)]
pub struct RegionMove {
    pub target: u8,
    pub rules: Rules,
}

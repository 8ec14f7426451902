// What a sheet and a chart mean: the definitions stand in specs/, the theorems in proofs/.
// Internal: serves sister crates; a function may ask what its callers have made sure of.
#![tactic(auto)]

// A rule for one counter: the new value is the offset, or factor * the old value of the source counter + offset.
#[derive(Clone, Copy, Debug, PartialEq, Eq, Hash)]
pub enum Rule {
    Set {
        offset: i64,
    },
    Carry {
        source: usize,
        factor: i64,
        offset: i64,
    },
}

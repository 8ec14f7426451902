// The worked examples P1 to P9 of document 01 on the definitions: one table, in specs/, and one proof, in proofs/.
// Internal: serves sister crates; a function may ask what its callers have made sure of.
#![tactic(auto)]

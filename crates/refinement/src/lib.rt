// The theory of minimisation by representatives with shrinking boxes: definitions stand in specs/, theorems in proofs/, and there is no code.
// Internal: serves sister crates; a function may ask what its callers have made sure of.
#![tactic(auto)]

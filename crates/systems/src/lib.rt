// Definitions and theorems about transition systems: definitions stand in specs/, the theorems in proofs/, and there is no code.
// Internal: serves sister crates; a function may ask what its callers have made sure of.
#![tactic(auto)]

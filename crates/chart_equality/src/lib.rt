// The theory of charts that obey the chart rules, whoever made them: equal bytes just when they behave alike. Definitions stand in specs/, theorems in proofs/, and there is no code.
// Internal: serves sister crates; a function may ask what its callers have made sure of.
#![tactic(auto)]

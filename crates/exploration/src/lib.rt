// Transition systems explored: reached configurations, first words, lock step, quotients, the Moore bound, also for two systems, a search over pairs. Definitions
// and laws, and there is no code.
// Internal: serves sister crates; a function may ask what its callers have made sure of.
#![tactic(auto)]

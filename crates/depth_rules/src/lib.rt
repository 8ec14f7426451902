// The depth at which the boxes of a sheet are exact: a bound in which the counters' ranges stand by their number of doublings alone. Definitions and laws; the
// code is in depth_bound.
// Internal: serves sister crates; a function may ask what its callers have made sure of.
#![tactic(auto)]

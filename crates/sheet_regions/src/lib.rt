// What the regions of a sheet mean together (document 01, "Turned back", 5 to 8): labels, shared configurations, the start, and where moves lead.
// Internal: serves sister crates; a function may ask what its callers have made sure of.
#![tactic(auto)]

pub mod landing;
pub mod regions;

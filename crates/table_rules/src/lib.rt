// The table of the refinement in flat arrays: what rows, targets, flags and bounds mean, how a row is cut and how one is added. Definitions and laws alone; the code
// is in table_rows and tables.
// Internal: it has no function.
#![tactic(auto)]

// Making a chart (document 01): what is checked, what is answered, what the lent buffers then hold, and what is claimed of it (demands 2 and 3), with the
// proofs of these claims. Definitions and laws alone; the code is in charting and claims.
// Public: it has no function.
#![tactic(auto)]

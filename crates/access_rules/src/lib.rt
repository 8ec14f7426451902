// The way to a block (document 02, U1): what is checked, what is answered, and what is promised of it. Definitions and laws alone; the code is in
// access_sequence.
// Public: it has no function.
#![tactic(auto)]

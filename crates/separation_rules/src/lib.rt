// Where two charts part (document 02, U2): what is checked, what is answered, and what is promised of it. Definitions and laws; the code is in
// separating_sequence.
// Public: no function asks anything of its caller, and each contract gives the answer as a definition does.
#![tactic(auto)]

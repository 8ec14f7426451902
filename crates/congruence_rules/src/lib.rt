// Counters that go round (document 02, U13): what is asked, what is answered, and what is promised of it. Definitions and laws; the code is in congruence.
// Public: no function asks anything of its caller, and each contract gives the answer as a definition does.
#![tactic(auto)]

// Two logs of the same run (document 02, U11): their first difference and the rest, and what is promised of both. Definitions and laws; the code is in logs.
// Public: no function asks anything of its caller, and each contract gives the answer as a definition does.
#![tactic(auto)]

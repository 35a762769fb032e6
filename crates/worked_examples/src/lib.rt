// No code: P1 to P10 of document 01 as one table (specs/), and that the rules give it (proofs/).
#![tactic(auto)]

// No code: the laws by which functions over a lent slice of records are proved by hand (proofs/).
#![tactic(auto)]

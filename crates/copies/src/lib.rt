// Copies of the index that saw other forks. Definitions and proofs; no function.
#![tactic(auto)]

// The flat list beside the index over histories. Definitions and proofs; no function.
#![tactic(auto)]

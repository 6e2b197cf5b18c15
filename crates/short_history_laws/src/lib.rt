// The list of every short history beside the index. Definitions and proofs; no function.
#![tactic(auto)]

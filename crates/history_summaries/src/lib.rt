// Summaries over histories: they stay current, and fork undo of the calls with summaries. Definitions and proofs; no function.
#![tactic(auto)]

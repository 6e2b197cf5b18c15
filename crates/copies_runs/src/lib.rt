// Copies that two runs of the call runner leave. Definitions and proofs; no function.
#![tactic(auto)]

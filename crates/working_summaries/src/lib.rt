// Calls with a summary over a working set of the table: definitions and laws, no code.
#![tactic(auto)]

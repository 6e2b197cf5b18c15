// Definitions and laws alone: the runner reads every load to its end. No function is here.
#![tactic(auto)]

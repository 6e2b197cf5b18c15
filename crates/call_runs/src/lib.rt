// Definitions and laws alone: which calls a run over an input makes, what they say, and why it ends. No function is here.
#![tactic(auto)]

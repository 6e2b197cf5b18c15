// What the two figures of a trial of staging sizes are worth: laws over the definitions of `trial_core`, no code.
#![tactic(auto)]

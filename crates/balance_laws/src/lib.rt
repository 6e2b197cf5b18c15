// The laws of balances that the fork-undo theorem uses; no function.
#![tactic(auto)]

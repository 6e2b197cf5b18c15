// A driver's steps with lists of other capacities: laws only.
#![tactic(auto)]

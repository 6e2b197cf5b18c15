// Summaries of a parent's box spills: a line of five numbers for each. The definitions and laws that the calls with a summary cite; no function.
#![tactic(auto)]

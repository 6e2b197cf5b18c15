// Some rows of the segments table borrowed instead of the whole table. Definitions and laws; no function.
#![tactic(auto)]

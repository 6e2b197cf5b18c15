// An order of whole addresses: its definitions and laws, and what a comparison answers.
// Internal: tokens are compared by `token_order`, entries by `side_order`, balances by `address_ranking`.
#![tactic(auto)]

// The tokens of a balance in two arrays, ids of 32 bytes and amounts: definitions and laws.
// Internal: ids are found and moved by `token_ids`, tokens added and subtracted by `token_changes`. The public calls are those of `balance`.
#![tactic(auto)]

// How many tokens are held after a change, or its refusal code.
pub type Counted = Result<usize, u8>;

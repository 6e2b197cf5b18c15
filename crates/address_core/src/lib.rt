// The address record: a hash, a flag, a balance if the flag is set, and a segment: definitions and laws.
// Internal: records are written by `address_writing` and read by `address_reading`. The public calls are those of `address`.
#![tactic(auto)]

use balance::Balance;
use refusal::Answer;

// An address: its hash, whether it has a balance, the balance (all zero where it has none), how many transactions and boxes, and the spill counts.
#[derive(Clone, Copy)]
pub struct IndexedAddress {
    pub hash: [u8; 32],
    pub has_balance: bool,
    pub balance: Balance,
    pub txs: usize,
    pub boxes: usize,
    pub box_segment_count: i32,
    pub tx_segment_count: i32,
}

// What a reader answers; after a refusal the address is all zero.
#[derive(Clone, Copy)]
pub struct AddressRead {
    pub answer: Answer,
    pub address: IndexedAddress,
}

// Whether there is a balance, its nanoErgs and token count, and the position after it; or the refusal code.
pub type Flagged = Result<(bool, i64, usize, usize), u8>;

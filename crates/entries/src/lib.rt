// The signed entries of a head or a row: their order, the entry that a spend or an unspend takes, and how many are spent: definitions and laws.
// The functions are those of `entry_order`, `entry_flips` and `entry_tallies`.
#![tactic(auto)]

// Where the entry stands that is to be flipped; or that only entries of the other sign were seen; or none.
#[derive(Clone, Copy)]
pub enum Position {
    At(usize),
    Seen,
    Absent,
}

// The places of a page of unspent numbers.
pub const PAGE: usize = 64;

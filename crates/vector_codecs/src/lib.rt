// Coded numbers, rows, address records, undo entries, pruning, digests and row keys: what a record's call reads or writes, a line each.
#![tactic(auto)]

pub mod keys;
pub mod prunes;
pub mod reads;
pub mod undos;
pub mod writes;

// Undo entries and their retention, after store/undo.rs of the Rust.
#![tactic(auto)]

pub mod entry;
pub mod prune;

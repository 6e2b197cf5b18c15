// An undo entry: what to restore when a block is taken back.
pub use undo_entries::{Decoded, Encoded, UndoEntry, decode, encode};

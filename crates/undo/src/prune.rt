// Pruning: which heights keep their undo entries.
pub use undo_pruning::{Pruned, ROLLBACK_WINDOW, Window, prune_below_window};

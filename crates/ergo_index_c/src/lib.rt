// The exports of the C interface, one static library: each is the call of the same name of a crate `ergo_index_*`, with the same clauses.
#![tactic(auto)]

mod addresses_exports;
mod answers_exports;
mod append_exports;
mod balances_exports;
mod batch_exports;
mod driver_exports;
mod editions_exports;
mod fetching_exports;
mod flat_exports;
mod flips_exports;
mod flush_exports;
mod histories_exports;
mod inspection_exports;
mod keys_exports;
mod load_exports;
mod missing_exports;
mod numbers_exports;
mod pages_exports;
mod pop_exports;
mod ranking_exports;
mod rows_exports;
mod summary_exports;
mod summary_flips_exports;
mod summary_missing_exports;
mod summary_moves_exports;
mod trials_exports;
mod undo_exports;

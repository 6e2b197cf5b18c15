// The segment row: two lists of numbers, each behind its length, and two spill counts: definitions and laws.
// Internal: rows are written by `segment_writing`, and read by `segment_reading` and `segment_loading`. The public calls are those of `segment`.
#![tactic(auto)]

// The most bytes of a row.
pub const ROW_LIMIT: usize = 10254;

// How many numbers were read and the position after them, or the refusal code.
pub type Part = Result<(usize, usize), u8>;

// The spill counts, of boxes and of transactions, and the position after them, or the refusal code.
pub type Counts = Result<(i32, i32, usize), u8>;

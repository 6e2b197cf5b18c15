// The types and leaves of the segment buffer's calls. A parent has a head of boxes and a head of transactions; each is a borrowed list of 512
// numbers beside its counts. Staged spills and the segments table are record lists, deleted spills a key list.
#![tactic(auto)]

ghost use Rattle.std.specs.Prelude.{◌≡◌, ◌≤◌};
ghost use Rattle.buffer_core.specs.Edition.{row_limit_of, record_size};
ghost use Rattle.buffer_core.specs.Spills.{head_ok};
ghost use Rattle.buffer_core.specs.Flip.{spends};

use index_types::{HeadCounts, RowEdition, SEGMENT_THRESHOLD};

// The bytes of a record in edition 1; its longest row has `segment_core::ROW_LIMIT`.
pub const RECORD: usize = 10288;

// The bytes of a record and of the longest row in edition 2, and so of any.
pub const LONGEST_RECORD: usize = 10326;

pub const LONGEST_ROW: usize = 10292;

#[derive(Clone, Copy)]
pub enum Direction {
    Spend,
    Unspend,
}

// Whether a direction is that of a spend.
pub fn is_spend(direction: Direction) -> bool
    ensures { result ≡ spends direction }
{
    match direction {
        Direction::Spend => true,
        Direction::Unspend => false,
    }
}

// ---- the steps of a spend

// The absolute value of a row's first number, or the row's refusal code.
pub type Lead = Result<u64, u8>;

// How many rows, from spill 0 on, begin at or below the target, or the refusal code of a row that was read.
pub type Low = Result<usize, u8>;

// What a row shows: the place of the entry to take; that the walk ends, or goes on, and whether the target was seen; or the row's refusal code.
#[derive(Clone, Copy)]
pub enum Look {
    Take(usize),
    Stop(bool),
    Next(bool),
    Fail(u8),
}

// Where the walk found the entry, as a spill number and a place; that it ended, and whether the target was seen; or a row's refusal code.
#[derive(Clone, Copy)]
pub enum Walk {
    Hit(usize, usize),
    Ended(bool),
    Failed(u8),
}

// Whether a head passes refusal 25.
pub fn head_ok(head: &[i64], counts: HeadCounts) -> bool
    ensures { result ≡ head_ok counts head.now }
{
    if counts.len <= SEGMENT_THRESHOLD {
        return SEGMENT_THRESHOLD <= head.len();
    }
    false
}

// The bytes of the longest row of an edition.
pub fn row_limit(edition: RowEdition) -> usize
    ensures { result ≡ row_limit_of edition }
{
    match edition {
        RowEdition::One => segment_core::ROW_LIMIT,
        RowEdition::Two => LONGEST_ROW,
    }
}

// The bytes of a record of an edition.
pub fn record_size(edition: RowEdition) -> usize
    ensures { (result ≡ record_size edition) × (result ≤ record_size RowEdition.Two) }
{
    match edition {
        RowEdition::One => RECORD,
        RowEdition::Two => LONGEST_RECORD,
    }
}

// The refusal codes of documents 01 ("Where a call is turned back") and 02, each by a name, and the answer of a call that returns nothing else.
#![tactic(auto)]

ghost use Rattle.std.specs.Prelude.{◌≡◌};
ghost use Rattle.refusal.specs.Refusal.{tolerated, numbers_from};

// Reading.
pub const BYTES_END: u8 = 1;

pub const NUMBER_TOO_LARGE: u8 = 2;

pub const NEGATIVE_LENGTH: u8 = 3;

pub const LIST_TOO_LONG: u8 = 4;

pub const LENGTH_ABOVE_BYTES_LEFT: u8 = 5;

pub const NEGATIVE_SPILL_COUNT_READ: u8 = 6;

pub const BAD_FLAG: u8 = 7;

pub const BYTES_LEFT_OVER: u8 = 8;

// Spend and unspend.
pub const TARGET_IS_MINIMUM: u8 = 9;

pub const HEAD_OUT_OF_ORDER: u8 = 10;

pub const NEGATIVE_SPILL_COUNT: u8 = 11;

pub const ROW_MISSING: u8 = 12;

pub const ROW_OUT_OF_ORDER: u8 = 13;

pub const NO_COPY_OF_THAT_SIGN: u8 = 14;

pub const TARGET_NOT_SEEN: u8 = 15;

pub const STAGING_FULL: u8 = 16;

// Append and pop.
pub const NEGATIVE_NUMBER: u8 = 17;

pub const SPILL_COUNT_AT_LIMIT: u8 = 18;

pub const NOTHING_TO_POP: u8 = 19;

pub const ROW_WITHOUT_NUMBERS: u8 = 20;

pub const DELETED_FULL: u8 = 21;

// Flush.
pub const TABLE_FULL: u8 = 22;

// Balance.
pub const AMOUNT_OUT_OF_RANGE: u8 = 23;

pub const TOO_MANY_TOKENS: u8 = 24;

// Buffers, tested first everywhere.
pub const BUFFERS: u8 = 25;

// Undo entry.
pub const UNDO_ENTRY_EMPTY: u8 = 26;

pub const UNDO_ENTRY_ID_CUT: u8 = 27;

pub const UNDO_ENTRY_TAG: u8 = 28;

pub const UNDO_ENTRY_NUMBERS_CUT: u8 = 29;

pub const UNDO_ENTRY_LEFT_OVER: u8 = 30;

// Call runner.
pub const UNKNOWN_CALL: u8 = 31;

// Writing.
pub const OUTPUT_TOO_SHORT: u8 = 32;

// Pages.
pub const PAGE_TOO_LONG: u8 = 33;

// Coded numbers: a number longer than one byte whose last byte is 00; tested directly after 2.
pub const NUMBER_PADDED: u8 = 34;

// Rows that say whose they are.
pub const ROW_OF_ANOTHER_SPILL: u8 = 35;

// Summaries.
pub const SUMMARY_TOO_SHORT: u8 = 36;

// The flat list.
pub const FLAT_LIST_FULL: u8 = 37;

// The generator and the simulation.
pub const STATE_IS_ZERO: u8 = 38;

pub const FORK_TOO_DEEP: u8 = 39;

pub const STANDING_CALLS_FULL: u8 = 40;

// The order of addresses.
pub const TOKEN_TWICE: u8 = 41;

// Holds the constants to their numbers, 1 to 41: none is 0, which stands for an accepted call. Nothing calls it.
fn codes() -> [u8; 41]
    ensures { result ≡ numbers_from 1 41 }
{
    [
        BYTES_END,
        NUMBER_TOO_LARGE,
        NEGATIVE_LENGTH,
        LIST_TOO_LONG,
        LENGTH_ABOVE_BYTES_LEFT,
        NEGATIVE_SPILL_COUNT_READ,
        BAD_FLAG,
        BYTES_LEFT_OVER,
        TARGET_IS_MINIMUM,
        HEAD_OUT_OF_ORDER,
        NEGATIVE_SPILL_COUNT,
        ROW_MISSING,
        ROW_OUT_OF_ORDER,
        NO_COPY_OF_THAT_SIGN,
        TARGET_NOT_SEEN,
        STAGING_FULL,
        NEGATIVE_NUMBER,
        SPILL_COUNT_AT_LIMIT,
        NOTHING_TO_POP,
        ROW_WITHOUT_NUMBERS,
        DELETED_FULL,
        TABLE_FULL,
        AMOUNT_OUT_OF_RANGE,
        TOO_MANY_TOKENS,
        BUFFERS,
        UNDO_ENTRY_EMPTY,
        UNDO_ENTRY_ID_CUT,
        UNDO_ENTRY_TAG,
        UNDO_ENTRY_NUMBERS_CUT,
        UNDO_ENTRY_LEFT_OVER,
        UNKNOWN_CALL,
        OUTPUT_TOO_SHORT,
        PAGE_TOO_LONG,
        NUMBER_PADDED,
        ROW_OF_ANOTHER_SPILL,
        SUMMARY_TOO_SHORT,
        FLAT_LIST_FULL,
        STATE_IS_ZERO,
        FORK_TOO_DEEP,
        STANDING_CALLS_FULL,
        TOKEN_TWICE,
    ]
}

// What a call answers that gives nothing else.
pub type Answer = Result<(), u8>;

// What is left of the answer of a flip in a derived index.
#[derive(Clone, Copy)]
pub enum Tolerated {
    Flipped,
    Skipped,
    Refused(u8),
}

// A flip that did not see its target is skipped; any other answer passes.
pub fn tolerate_secondary_drift(flip: Answer) -> Tolerated
    ensures { result ≡ tolerated flip }
{
    match flip {
        Ok(()) => Tolerated::Flipped,
        Err(code) => {
            if code == TARGET_NOT_SEEN {
                Tolerated::Skipped
            } else {
                Tolerated::Refused(code)
            }
        }
    }
}

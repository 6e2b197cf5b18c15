// The types that the signatures of public calls show. They hold numbers only: what a call borrows stays with its caller.
#![tactic(auto)]

// ---- limits

// The most numbers of a head, and of a list in a row.
pub const SEGMENT_THRESHOLD: usize = 512;

// The most spills of a kind that a parent has.
pub const SPILL_LIMIT: usize = 2147483647;

// The most tokens of a balance, and the bytes of their ids.
pub const TOKEN_LIMIT: usize = 128;

pub const TOKEN_ID_BYTES: usize = 4096;

// The most bytes of an address record.
pub const ADDRESS_LIMIT: usize = 15675;

// The numbers in a line of a summary.
pub const SUMMARY_LINE: usize = 5;

// The most numbers of a flat list.
pub const FLAT_LIMIT: usize = 4096;

// ---- how a batch of a driver's calls ends where no refusal ends it: the answers have no more room; at the end of the input; inside a call; the journal has no
// room for the next call

pub const ANSWERS_FULL: u8 = 0;

pub const END_OF_INPUT: u8 = 1;

pub const CUT_CALL: u8 = 2;

pub const JOURNAL_FULL: u8 = 3;

// ---- types

// An edition of the spill rows. The second writes the parent, the kind and the spill number before the body.
#[derive(Clone, Copy)]
pub enum RowEdition {
    One,
    Two,
}

// How many records a list holds, and how many it has room for.
#[derive(Clone, Copy)]
pub struct ListCounts {
    pub count: usize,
    pub capacity: usize,
}

// How many numbers stand in a head, and how many rows it has spilled.
#[derive(Clone, Copy)]
pub struct HeadCounts {
    pub len: usize,
    pub spills: i32,
}

// The counts of the head and of the staged spills after an append.
pub type Appended = Result<(HeadCounts, ListCounts), u8>;

// The number of a box and the number of a transaction; neither takes the other's place.
#[derive(Clone, Copy)]
pub struct BoxNumber(pub i64);

#[derive(Clone, Copy)]
pub struct TxNumber(pub i64);

// The number that was popped, and the counts of the head, of the staged and of the deleted spills after it.
pub type Popped = Result<(i64, HeadCounts, ListCounts, ListCounts), u8>;

// The number that was popped, and the counts of the head, of the staged and of the deleted spills after it.
pub type PoppedBox = Result<(BoxNumber, HeadCounts, ListCounts, ListCounts), u8>;

pub type PoppedTx = Result<(TxNumber, HeadCounts, ListCounts, ListCounts), u8>;

// The counts of the staged spills after a spend or an unspend.
pub type Flipped = Result<ListCounts, u8>;

// How many entries are unspent, spent and unknown: above, below and equal to 0.
#[derive(Clone, Copy)]
pub struct Tally {
    pub unspent: usize,
    pub spent: usize,
    pub unknown: usize,
}

// The figures of a tally.
pub type Tallied = Result<Tally, u8>;

// A summary was made afresh.
pub type Summarized = Result<(), u8>;

// How many numbers stand in a page.
pub type Paged = Result<usize, u8>;

// The counts of the table, the staged and the deleted spills after a flush.
pub type Flushed = Result<(ListCounts, ListCounts, ListCounts), u8>;

// How many numbers stand in a flat list after an append, a spend or an unspend.
pub type FlatChanged = Result<usize, u8>;

// The number that was popped from a flat list, and how many stand in it after.
pub type FlatPopped = Result<(BoxNumber, usize), u8>;

// A signed 64-bit number that was read and the position after it, or the refusal code.
pub type Long = Result<(i64, usize), u8>;

// A signed 32-bit number that was read and the position after it, or the refusal code.
pub type Int = Result<(i32, usize), u8>;

// What a writer answers: the position after the bytes that it wrote, or the refusal code.
pub type Wrote = Result<usize, u8>;

// A segment that was read: how many transactions and boxes, the spill counts, and the position after it; or the refusal code.
#[derive(Clone, Copy)]
pub enum Loaded {
    Read {
        txs: usize,
        boxes: usize,
        box_segment_count: i32,
        tx_segment_count: i32,
        next: usize,
    },
    Refused(u8),
}

// The counts of the three lists of spills.
#[derive(Clone, Copy)]
pub struct SpillCounts {
    pub staged: ListCounts,
    pub table: ListCounts,
    pub deleted: ListCounts,
}

// The largest number of staged rows and of deleted keys at any one time, or the number that ended the trial.
pub type TriedForks = Result<(usize, usize), u8>;

// How the first of two values stands to the second.
#[derive(Clone, Copy)]
pub enum Order {
    Less,
    Equal,
    Greater,
}

// The counts of an address: whether it has a balance, the balance's nanoErgs and how many tokens it holds, both heads, the staged spills and the table.
#[derive(Clone, Copy)]
pub struct AddressCounts {
    pub held: bool,
    pub nanos: i64,
    pub tokens: usize,
    pub boxes: HeadCounts,
    pub txs: HeadCounts,
    pub staged: ListCounts,
    pub table: ListCounts,
}

// How two addresses rank, or the refusal code.
pub type Ranked = Result<Order, u8>;

// How far a batch of a driver's calls has come: the counts of the lists, the next byte, the calls made, the journal's bytes and its standing calls, and how it
// ended: one of the numbers above; the refusal 12, 16, 21 or 22 that the call at the next byte said, which the driver lifts; 31 at what is no call; or 25 where
// the state or the journal was refused and no call made.
#[derive(Clone, Copy)]
pub struct Applied {
    pub counts: SpillCounts,
    pub at: usize,
    pub made: usize,
    pub used: usize,
    pub standing: usize,
    pub ended: u8,
}

// What an undo of a driver's calls leaves: the counts of the lists, the journal's bytes and its standing calls, and 0 or the refusal.
#[derive(Clone, Copy)]
pub struct Undone {
    pub counts: SpillCounts,
    pub used: usize,
    pub standing: usize,
    pub code: u8,
}

// What the exports of a driver's batches tell: the counts of the lists that go in, and the outs that are numbers.
#![tactic(auto)]

ghost use Rattle.std.specs.Prelude.{◌≡◌};
ghost use Rattle.call_steps.specs.Steps.{spill_counts};
ghost use Rattle.ergo_index_lists.specs.Lists.{list_of};
ghost use Rattle.driver_outs.specs.Outs.{outs_of};

use index_types::{Applied, ListCounts, SpillCounts};

// The code and what goes to the outs that are numbers.
#[derive(Clone, Copy)]
pub struct Outs {
    pub code: u8,
    pub at: usize,
    pub made: usize,
    pub end: u8,
    pub staged: usize,
    pub table: usize,
    pub deleted: usize,
    pub used: usize,
    pub standing: usize,
}

// The counts of the three lists, each beside its capacity.
pub fn spill_counts(
    staged: usize,
    staged_capacity: usize,
    table: usize,
    table_capacity: usize,
    deleted: usize,
    deleted_capacity: usize,
) -> SpillCounts
    ensures { result ≡ spill_counts (list_of staged staged_capacity) (list_of table table_capacity) (list_of deleted deleted_capacity) }
{
    let staged_counts = ListCounts {
        count: staged,
        capacity: staged_capacity,
    };
    let table_counts = ListCounts {
        count: table,
        capacity: table_capacity,
    };
    let deleted_counts = ListCounts {
        count: deleted,
        capacity: deleted_capacity,
    };
    SpillCounts {
        staged: staged_counts,
        table: table_counts,
        deleted: deleted_counts,
    }
}

// The outs after a batch, of which three were at, made and end.
pub fn outs_of(p: Applied, at: usize, made: usize, end: u8) -> Outs
    ensures { result ≡ outs_of p at made end }
{
    let after = p.counts;
    let staged = after.staged;
    let table = after.table;
    let deleted = after.deleted;
    let ended = p.ended;
    Outs {
        code: batch_answers::code_of(ended),
        at: batch_answers::kept(ended, at, p.at),
        made: batch_answers::kept(ended, made, p.made),
        end: batch_answers::kept_end(ended, end),
        staged: staged.count,
        table: table.count,
        deleted: deleted.count,
        used: p.used,
        standing: p.standing,
    }
}

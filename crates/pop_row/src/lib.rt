// A pop from an empty head, for boxes and transactions alike: the newest row becomes the head.
#![tactic(auto)]

ghost use Rattle.std.specs.Prelude.{◌≡◌, ◌<◌};
ghost use Rattle.buffer_core.specs.Edition.{edition_of};
ghost use Rattle.buffer_core.specs.Pop.{popping, lists, unspill_of};
ghost use Rattle.pop_row.specs.Internal.{PopReady};

use index_types::{ListCounts, Popped, RowEdition, SEGMENT_THRESHOLD};
use segment_id::Kind;

// A pop from an empty head with spills + 1 rows: the newest becomes the head. One row is read, so no hints are made.
pub fn unspill(
    edition: RowEdition,
    kind: Kind,
    parent: &[u8; 32],
    spills: usize,
    head: &mut [i64],
    staged_counts: ListCounts,
    staged: &mut [u8],
    table_counts: ListCounts,
    table: &[u8],
    deleted_counts: ListCounts,
    deleted: &mut [u8],
) -> Popped
    requires { (spills < 2147483648) × PopReady edition (lists staged_counts staged.old table_counts table.now deleted_counts deleted.old) head.old }
    ensures { popping result head.new staged.new deleted.new
        ≡ unspill_of (edition_of edition) kind parent.now spills
        (lists staged_counts staged.old table_counts table.now deleted_counts deleted.old) head.old }
{
    let key = spill_rows::spill_key(kind, parent, spills);
    let none = [0u16; 1];
    let mut list = [0i64; SEGMENT_THRESHOLD];
    let read = spill_rows::read_under(
        edition,
        kind,
        parent,
        spills,
        &key,
        staged,
        staged_counts.count,
        table,
        table_counts.count,
        &none[..0],
        &mut list,
    );
    match read {
        Err(code) => Err(code),
        Ok(n) => {
            if n == 0 {
                return Err(refusal::ROW_WITHOUT_NUMBERS);
            }
            if record_changes::full_for(deleted, 32, deleted_counts, &key) {
                return Err(refusal::DELETED_FULL);
            }
            pop_merge::merge(
                edition,
                &list,
                n,
                spills,
                &key,
                head,
                staged_counts,
                staged,
                deleted_counts,
                deleted,
            )
        }
    }
}

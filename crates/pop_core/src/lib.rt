// Pop for boxes and transactions alike, once refusal 25 is tested.
#![tactic(auto)]

ghost use Rattle.std.specs.Prelude.{◌≡◌, ◌≤◌};
ghost use Rattle.index_types.specs.Limits.{segment_threshold};
ghost use Rattle.buffer_core.specs.Edition.{edition_of};
ghost use Rattle.buffer_core.specs.Pop.{popping, lists, pop_core};
ghost use Rattle.pop_row.specs.Internal.{PopReady};

use index_types::{HeadCounts, ListCounts, Popped, RowEdition};
use segment_id::Kind;

// The last number of the head; an empty head takes the newest row first.
pub fn pop(
    edition: RowEdition,
    kind: Kind,
    parent: &[u8; 32],
    counts: HeadCounts,
    head: &mut [i64],
    staged_counts: ListCounts,
    staged: &mut [u8],
    table_counts: ListCounts,
    table: &[u8],
    deleted_counts: ListCounts,
    deleted: &mut [u8],
) -> Popped
    requires { (counts.len ≤ segment_threshold) × PopReady edition (lists staged_counts staged.old table_counts table.now deleted_counts deleted.old) head.old }
    ensures { popping result head.new staged.new deleted.new
        ≡ pop_core (edition_of edition) kind parent.now counts
        (lists staged_counts staged.old table_counts table.now deleted_counts deleted.old) head.old }
{
    let len = counts.len;
    let spills = counts.spills;
    if signed::is_negative_i32(spills) {
        return Err(refusal::NEGATIVE_SPILL_COUNT);
    }
    if 0 < len {
        let number = pop_merge::take_last(head, len);
        return Ok((
            number,
            HeadCounts {
                len: len - 1,
                spills,
            },
            staged_counts,
            deleted_counts,
        ));
    }
    let rows = signed::usize_from_i32(spills);
    if rows == 0 {
        return Err(refusal::NOTHING_TO_POP);
    }
    pop_row::unspill(
        edition,
        kind,
        parent,
        rows - 1,
        head,
        staged_counts,
        staged,
        table_counts,
        table,
        deleted_counts,
        deleted,
    )
}

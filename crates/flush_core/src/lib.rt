// The flush, once refusal 25 has passed: staged rows whose key is not deleted go to the table, then the deleted keys leave it. The table's records are found by hints (`record_hints`).
#![tactic(auto)]

ghost use Rattle.std.specs.Prelude.{◌≡◌, true, ◌*◌, ◌-◌, ◌≤◌, leb, length};
ghost use Rattle.records.specs.Records.{keys};
ghost use Rattle.records.specs.Find.{distinct};
ghost use Rattle.records.specs.Checks.{InBounds};
ghost use Rattle.buffer_core.specs.Edition.{edition_of, record_size};
ghost use Rattle.buffer_core.specs.Pop.{lists};
ghost use Rattle.buffer_core.specs.Flush.{new_count, flushing, flushed, flush_core};
ghost use Rattle.entries.specs.Tally.{one_if};
ghost use Rattle.flush_table.specs.Internal.{is_new};
ghost use Rattle.flush_core.specs.Internal.{FlushReady, RoomReady};

use index_types::{Flushed, ListCounts, RowEdition};

// 1 where a key stands neither among the deleted ones nor in the table, else 0.
fn count_key(
    edition: RowEdition,
    table: &[u8],
    table_count: usize,
    deleted: &[u8],
    deleted_count: usize,
    key: &[u8],
    hints: &[u16],
) -> usize
    requires { (table_count * record_size edition ≤ length table.now) × (deleted_count * 32 ≤ length deleted.now) × (length key.now ≡ 32)
        × (distinct (keys (record_size edition) table_count table.now) ≡ true) }
    ensures { result ≡ one_if (is_new (keys (record_size edition) table_count table.now) (keys 32 deleted_count deleted.now) key.now) }
{
    if flush_table::holds_key(deleted, 32, deleted_count, key) {
        return 0;
    }
    let size = buffer_core::record_size(edition);
    let found = record_hints::find_hinted(table, size, table_count, key, hints);
    match found {
        Some(_) => 0,
        None => 1,
    }
}

// How many staged keys stand neither among the deleted ones nor in the table.
fn count_new(
    edition: RowEdition,
    table: &[u8],
    table_count: usize,
    staged: &[u8],
    staged_count: usize,
    deleted: &[u8],
    deleted_count: usize,
    hints: &[u16],
) -> usize
    requires { (table_count * record_size edition ≤ length table.now) × (staged_count * record_size edition ≤ length staged.now)
        × (deleted_count * 32 ≤ length deleted.now) × (distinct (keys (record_size edition) table_count table.now) ≡ true) }
    ensures { result ≡ new_count (keys (record_size edition) table_count table.now) (keys 32 deleted_count deleted.now)
        (keys (record_size edition) staged_count staged.now) }
{
    let size = buffer_core::record_size(edition);
    let mut n = 0;
    for i in 0..staged_count {
        let at = i * size;
        let end = at + 32;
        n += count_key(
            edition,
            table,
            table_count,
            deleted,
            deleted_count,
            &staged[at..end],
            hints,
        );
    }
    n
}

// Whether the table has a free record for each new key. As no more keys are new than are staged, they are counted only where the staged ones are more than its free records.
fn has_room(
    edition: RowEdition,
    table: &[u8],
    table_counts: ListCounts,
    staged: &[u8],
    staged_count: usize,
    deleted: &[u8],
    deleted_count: usize,
    hints: &[u16],
) -> bool
    requires { InBounds (record_size edition) table_counts table.now × (staged_count * record_size edition ≤ length staged.now)
        × (deleted_count * 32 ≤ length deleted.now) × (distinct (keys (record_size edition) table_counts.count table.now) ≡ true) }
    ensures { result ≡ leb (new_count (keys (record_size edition) table_counts.count table.now) (keys 32 deleted_count deleted.now)
        (keys (record_size edition) staged_count staged.now)) (table_counts.capacity - table_counts.count) }
{
    let free = table_counts.capacity - table_counts.count;
    if staged_count <= free {
        return true;
    }
    let new = count_new(
        edition,
        table,
        table_counts.count,
        staged,
        staged_count,
        deleted,
        deleted_count,
        hints,
    );
    new <= free
}

// The flush of lists that have room.
fn flush_lists(
    edition: RowEdition,
    table: &mut [u8],
    table_counts: ListCounts,
    staged: &mut [u8],
    staged_counts: ListCounts,
    deleted: &mut [u8],
    deleted_counts: ListCounts,
    hints: &mut [u16],
) -> Flushed
    requires { RoomReady edition (lists staged_counts staged.old table_counts table.old deleted_counts deleted.old) }
    ensures { flushing result table.new staged.new deleted.new
        ≡ flushed (edition_of edition) (lists staged_counts staged.old table_counts table.old deleted_counts deleted.old) }
{
    let left = flush_table::flush_table(
        edition,
        table,
        table_counts,
        staged,
        staged_counts.count,
        deleted,
        deleted_counts.count,
        hints,
    );
    let size = buffer_core::record_size(edition);
    record_changes::clear_list(staged, size, staged_counts.capacity);
    record_changes::clear_list(deleted, 32, deleted_counts.capacity);
    Ok((
        ListCounts {
            count: left,
            capacity: table_counts.capacity,
        },
        ListCounts {
            count: 0,
            capacity: staged_counts.capacity,
        },
        ListCounts {
            count: 0,
            capacity: deleted_counts.capacity,
        },
    ))
}

// Refusal 22, or the flush.
pub fn flush(
    edition: RowEdition,
    table: &mut [u8],
    table_counts: ListCounts,
    staged: &mut [u8],
    staged_counts: ListCounts,
    deleted: &mut [u8],
    deleted_counts: ListCounts,
    hints: &mut [u16],
) -> Flushed
    requires { FlushReady edition (lists staged_counts staged.old table_counts table.old deleted_counts deleted.old) }
    ensures { flushing result table.new staged.new deleted.new
        ≡ flush_core (edition_of edition) (lists staged_counts staged.old table_counts table.old deleted_counts deleted.old) }
{
    if has_room(
        edition,
        table,
        table_counts,
        staged,
        staged_counts.count,
        deleted,
        deleted_counts.count,
        hints,
    ) {
        return flush_lists(
            edition,
            table,
            table_counts,
            staged,
            staged_counts,
            deleted,
            deleted_counts,
            hints,
        );
    }
    Err(refusal::TABLE_FULL)
}

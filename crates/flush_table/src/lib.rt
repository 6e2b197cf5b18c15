// What a flush that has room makes of the table: staged rows whose key is not deleted go to it, then the deleted keys leave it. Records are found by hints (`record_hints`).
#![tactic(auto)]

ghost use Rattle.std.specs.Prelude.{◌≡◌, true, ◌+◌, ◌*◌, ◌≤◌, length, take, drop};
ghost use Rattle.records.specs.Records.{records, keys};
ghost use Rattle.records.specs.Find.{find_key, is_found, distinct};
ghost use Rattle.records.specs.Changes.{with_count};
ghost use Rattle.buffer_core.specs.Edition.{edition_of, record_size};
ghost use Rattle.buffer_core.specs.Flush.{new_count, listed, put_undeleted, remove_key, remove_keys};
ghost use Rattle.entries.specs.Tally.{one_if};
ghost use Rattle.flush_table.specs.Internal.{is_new, put_unless_deleted};

use index_types::{ListCounts, RowEdition};

// Whether a key stands in a list.
pub fn holds_key(list: &[u8], size: usize, count: usize, key: &[u8]) -> bool
    requires { (32 ≤ size) × (count * size ≤ length list.now) }
    ensures { result ≡ is_found (find_key key.now (keys size count list.now)) }
{
    let found = records::find(list, size, count, key);
    match found {
        Some(_) => true,
        None => false,
    }
}

// Puts the staged record at a position into the table, unless its key is deleted. Returns the table's count.
fn put_unless_deleted(
    edition: RowEdition,
    table: &mut [u8],
    counts: ListCounts,
    staged: &[u8],
    at: usize,
    deleted: &[u8],
    deleted_count: usize,
    hints: &mut [u16],
) -> usize
    requires { (at + record_size edition ≤ length staged.now) × (deleted_count * 32 ≤ length deleted.now)
        × ((counts.count + one_if (is_new (keys (record_size edition) counts.count table.old) (keys 32 deleted_count deleted.now) (take 32 (drop at staged.now)))) * record_size edition
        ≤ length table.old) × (distinct (keys (record_size edition) counts.count table.old) ≡ true) }
    ensures { listed (with_count result counts) table.new
        ≡ put_unless_deleted edition (keys 32 deleted_count deleted.now) (take (record_size edition) (drop at staged.now)) (listed counts table.old) }
{
    let end = at + 32;
    let count = counts.count;
    if holds_key(deleted, 32, deleted_count, &staged[at..end]) {
        return count;
    }
    let size = buffer_core::record_size(edition);
    let row = records::row_part(staged, at, size);
    hinted_changes::put(table, size, count, &staged[at..end], row, hints)
}

// Puts the staged records whose key is not deleted into the table, in list order. Returns the table's count.
fn put_undeleted(
    edition: RowEdition,
    table: &mut [u8],
    counts: ListCounts,
    staged: &[u8],
    staged_count: usize,
    deleted: &[u8],
    deleted_count: usize,
    hints: &mut [u16],
) -> usize
    requires { (staged_count * record_size edition ≤ length staged.now) × (deleted_count * 32 ≤ length deleted.now)
        × ((counts.count + new_count (keys (record_size edition) counts.count table.old) (keys 32 deleted_count deleted.now) (keys (record_size edition) staged_count staged.now)) * record_size edition
        ≤ length table.old) × (distinct (keys (record_size edition) counts.count table.old) ≡ true) }
    ensures { (listed (with_count result counts) table.new
        ≡ put_undeleted (edition_of edition) (keys 32 deleted_count deleted.now) (records (record_size edition) staged_count staged.now) (listed counts table.old))
        × (result * record_size edition ≤ length table.new) × (distinct (keys (record_size edition) result table.new) ≡ true) }
{
    let size = buffer_core::record_size(edition);
    let mut n = counts.count;
    for i in 0..staged_count {
        let now_counts = ListCounts {
            count: n,
            capacity: counts.capacity,
        };
        n = put_unless_deleted(
            edition,
            table,
            now_counts,
            staged,
            i * size,
            deleted,
            deleted_count,
            hints,
        );
    }
    n
}

// Removes the record of a key, if it is there. Returns the list's count.
fn remove_key(
    edition: RowEdition,
    list: &mut [u8],
    counts: ListCounts,
    key: &[u8],
    hints: &mut [u16],
) -> usize
    requires { (counts.count * record_size edition ≤ length list.old) × (length key.now ≡ 32)
        × (distinct (keys (record_size edition) counts.count list.old) ≡ true) }
    ensures { listed (with_count result counts) list.new ≡ remove_key (edition_of edition) key.now (listed counts list.old) }
{
    let size = buffer_core::record_size(edition);
    let count = counts.count;
    let found = record_hints::find_hinted(list, size, count, key, hints);
    match found {
        Some(i) => {
            hinted_changes::remove(list, size, count, i, hints);
            count - 1
        }
        None => count,
    }
}

// Removes the records of the deleted keys, in list order. Returns the table's count.
fn remove_deleted(
    edition: RowEdition,
    table: &mut [u8],
    counts: ListCounts,
    deleted: &[u8],
    deleted_count: usize,
    hints: &mut [u16],
) -> usize
    requires { (counts.count * record_size edition ≤ length table.old) × (deleted_count * 32 ≤ length deleted.now)
        × (distinct (keys (record_size edition) counts.count table.old) ≡ true) }
    ensures { listed (with_count result counts) table.new ≡ remove_keys (edition_of edition) (keys 32 deleted_count deleted.now) (listed counts table.old) }
{
    let (keys, _) = deleted.as_chunks::<32>();
    let mut n = counts.count;
    for key in &keys[..deleted_count] {
        let now_counts = ListCounts {
            count: n,
            capacity: counts.capacity,
        };
        n = remove_key(edition, table, now_counts, key, hints);
    }
    n
}

// The table of a flush that has room. Returns the table's count.
pub fn flush_table(
    edition: RowEdition,
    table: &mut [u8],
    counts: ListCounts,
    staged: &[u8],
    staged_count: usize,
    deleted: &[u8],
    deleted_count: usize,
    hints: &mut [u16],
) -> usize
    requires { (staged_count * record_size edition ≤ length staged.now) × (deleted_count * 32 ≤ length deleted.now)
        × ((counts.count + new_count (keys (record_size edition) counts.count table.old) (keys 32 deleted_count deleted.now) (keys (record_size edition) staged_count staged.now)) * record_size edition
        ≤ length table.old) × (distinct (keys (record_size edition) counts.count table.old) ≡ true) }
    ensures { listed (with_count result counts) table.new
        ≡ remove_keys (edition_of edition) (keys 32 deleted_count deleted.now)
        (put_undeleted (edition_of edition) (keys 32 deleted_count deleted.now) (records (record_size edition) staged_count staged.now) (listed counts table.old)) }
{
    let capacity = counts.capacity;
    let put = put_undeleted(
        edition,
        table,
        counts,
        staged,
        staged_count,
        deleted,
        deleted_count,
        hints,
    );
    let put_counts = ListCounts {
        count: put,
        capacity: capacity,
    };
    remove_deleted(edition, table, put_counts, deleted, deleted_count, hints)
}

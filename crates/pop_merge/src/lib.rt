// A row merged back, for boxes and transactions alike: its numbers become the head, and its key leaves the staged spills and joins the deleted ones.
#![tactic(auto)]

ghost use Rattle.std.specs.Prelude.{◌≡◌, ◌*◌, ◌≤◌, ◌<◌, length};
ghost use Rattle.records.specs.Records.{keys};
ghost use Rattle.records.specs.Find.{find_key};
ghost use Rattle.buffer_core.specs.Pop.{popping, count_without, bytes_without, last_of, without_last};
ghost use Rattle.pop_merge.specs.Internal.{MergeReady, Merges};

use index_types::{HeadCounts, ListCounts, Popped, RowEdition};

// Takes the last of the head's numbers; its place becomes 0.
pub fn take_last(head: &mut [i64], len: usize) -> i64
    requires { (0 < len) × (len ≤ length head.old) }
    ensures { (result ≡ last_of len head.old) × (head.new ≡ without_last len head.old) }
{
    let at = len - 1;
    let last = head[at];
    head[at] = 0;
    last
}

// Removes the record with the key, if there is one, and gives the counts.
fn unstage(staged: &mut [u8], size: usize, counts: ListCounts, key: &[u8]) -> ListCounts
    requires { (32 ≤ size) × (counts.count * size ≤ length staged.old) }
    ensures { (result ≡ count_without (find_key key.now (keys size counts.count staged.old)) counts)
        × (staged.new ≡ bytes_without size (find_key key.now (keys size counts.count staged.old)) counts staged.old) }
{
    let count = counts.count;
    let found = records::find(staged, size, count, key);
    match found {
        Some(i) => {
            record_changes::remove(staged, size, count, i);
            ListCounts {
                count: count - 1,
                capacity: counts.capacity,
            }
        }
        None => counts,
    }
}

// The n numbers of a row become the head, which loses its last; the row's key leaves the staged spills and joins the deleted ones.
pub fn merge(
    edition: RowEdition,
    list: &[i64],
    n: usize,
    spills: usize,
    key: &[u8],
    head: &mut [i64],
    staged_counts: ListCounts,
    staged: &mut [u8],
    deleted_counts: ListCounts,
    deleted: &mut [u8],
) -> Popped
    requires { MergeReady edition list.now n spills key.now staged_counts staged.old deleted_counts deleted.old head.old }
    ensures { Merges edition list.now n spills key.now staged_counts staged.old deleted_counts deleted.old head.old
        (popping result head.new staged.new deleted.new) }
{
    stores::copy_numbers(head, 0, list);
    let number = take_last(head, n);
    let size = buffer_core::record_size(edition);
    let staged_after = unstage(staged, size, staged_counts, key);
    let count = record_changes::put_key(deleted, deleted_counts.count, key);
    let rows = signed::i32_from_usize(spills);
    Ok((
        number,
        HeadCounts {
            len: n - 1,
            spills: rows,
        },
        staged_after,
        ListCounts {
            count,
            capacity: deleted_counts.capacity,
        },
    ))
}

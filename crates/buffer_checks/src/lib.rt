// What refusal 25 asks of the buffers that a call on a parent's segment borrows, and the types that tell box numbers from transaction numbers.
#![tactic(auto)]

ghost use Rattle.std.specs.Prelude.{◌≡◌};
ghost use Rattle.records.specs.Checks.{records_ok};
ghost use Rattle.buffer_core.specs.Edition.{edition_of, record_size, row_limit_of};
ghost use Rattle.buffer_core.specs.Append.{append_ok};
ghost use Rattle.buffer_core.specs.Pop.{lists, lists_ok, pop_ok};
ghost use Rattle.buffer_core.specs.Flip.{flip_ok};

use index_types::{HeadCounts, ListCounts, RowEdition};

// Whether a record list passes refusal 25.
pub fn spills_ok(edition: RowEdition, list: &[u8], counts: ListCounts) -> bool
    ensures { result ≡ records_ok (record_size edition) (row_limit_of edition) counts list.now }
{
    let size = buffer_core::record_size(edition);
    let limit = buffer_core::row_limit(edition);
    distinct_keys::records_ok(list, size, limit, counts)
}

// Refusal 25 of an append.
pub fn append_ok(
    edition: RowEdition,
    counts: HeadCounts,
    staged_counts: ListCounts,
    head: &[i64],
    staged: &[u8],
) -> bool
    ensures { result ≡ append_ok (edition_of edition) counts staged_counts head.now staged.now }
{
    if buffer_core::head_ok(head, counts) {
        return spills_ok(edition, staged, staged_counts);
    }
    false
}

// Refusal 25 of the three lists.
pub fn lists_ok(
    edition: RowEdition,
    staged_counts: ListCounts,
    staged: &[u8],
    table_counts: ListCounts,
    table: &[u8],
    deleted_counts: ListCounts,
    deleted: &[u8],
) -> bool
    ensures { result ≡ lists_ok (edition_of edition) (lists staged_counts staged.now table_counts table.now deleted_counts deleted.now) }
{
    if spills_ok(edition, staged, staged_counts) {
        if spills_ok(edition, table, table_counts) {
            return distinct_keys::keys_ok(deleted, deleted_counts);
        }
    }
    false
}

// Refusal 25 of a pop.
pub fn pop_ok(
    edition: RowEdition,
    counts: HeadCounts,
    head: &[i64],
    staged_counts: ListCounts,
    staged: &[u8],
    table_counts: ListCounts,
    table: &[u8],
    deleted_counts: ListCounts,
    deleted: &[u8],
) -> bool
    ensures { result ≡ pop_ok (edition_of edition) counts (lists staged_counts staged.now table_counts table.now deleted_counts deleted.now) head.now }
{
    if buffer_core::head_ok(head, counts) {
        return lists_ok(
            edition,
            staged_counts,
            staged,
            table_counts,
            table,
            deleted_counts,
            deleted,
        );
    }
    false
}

// Refusal 25 of a spend, of an unspend and of a tally.
pub fn flip_ok(
    edition: RowEdition,
    counts: HeadCounts,
    staged_counts: ListCounts,
    staged: &[u8],
    table_counts: ListCounts,
    table: &[u8],
    head: &[i64],
) -> bool
    ensures { result ≡ flip_ok (edition_of edition) counts staged_counts staged.now table_counts table.now head.now }
{
    if buffer_core::head_ok(head, counts) {
        if spills_ok(edition, staged, staged_counts) {
            return spills_ok(edition, table, table_counts);
        }
    }
    false
}

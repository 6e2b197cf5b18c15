// A row that was fetched, put under its key into the records that are borrowed as the table.
#![tactic(auto)]

ghost use Rattle.std.specs.Prelude.{◌≡◌};
ghost use Rattle.buffer_core.specs.Edition.{edition_of};
ghost use Rattle.row_fetching.specs.Putting.{putting, put_of};

use index_types::{ListCounts, RowEdition};

// The counts with the row put, or a refusal.
pub type RowPut = Result<ListCounts, u8>;

// Puts a row under its key, in the place of the row that it had, or last.
pub fn put_row(
    edition: RowEdition,
    key: &[u8; 32],
    row: &[u8],
    counts: ListCounts,
    work: &mut [u8],
) -> RowPut
    ensures { putting result work.new ≡ put_of (edition_of edition) key.now row.now counts work.old }
{
    let capacity = counts.capacity;
    if !buffer_checks::spills_ok(edition, work, counts) {
        return Err(refusal::BUFFERS);
    }
    let limit = buffer_core::row_limit(edition);
    if limit < row.len() {
        return Err(refusal::BUFFERS);
    }
    let size = buffer_core::record_size(edition);
    if record_changes::full_for(work, size, counts, key) {
        return Err(refusal::TABLE_FULL);
    }
    let count = record_changes::put(work, size, counts.count, key, row);
    Ok(ListCounts { count, capacity })
}

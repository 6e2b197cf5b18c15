// The flush, for any buffers.
#![tactic(auto)]

ghost use Rattle.std.specs.Prelude.{◌≡◌};
ghost use Rattle.buffer_core.specs.Edition.{edition_of};
ghost use Rattle.buffer_core.specs.Pop.{lists};
ghost use Rattle.buffer_core.specs.Flush.{flushing, flush_of};

use index_types::{Flushed, ListCounts, RowEdition};

// Writes the staged rows whose key is not deleted to the table, then removes the deleted keys from it; staged and deleted spills end empty.
pub fn flush_staged_spills(
    edition: RowEdition,
    staged_counts: ListCounts,
    staged: &mut [u8],
    table_counts: ListCounts,
    table: &mut [u8],
    deleted_counts: ListCounts,
    deleted: &mut [u8],
) -> Flushed
    ensures { flushing result table.new staged.new deleted.new
        ≡ flush_of (edition_of edition) (lists staged_counts staged.old table_counts table.old deleted_counts deleted.old) }
{
    if buffer_checks::lists_ok(
        edition,
        staged_counts,
        staged,
        table_counts,
        table,
        deleted_counts,
        deleted,
    ) {
        let mut none = [0u16; 1];
        return flush_core::flush(
            edition,
            table,
            table_counts,
            staged,
            staged_counts,
            deleted,
            deleted_counts,
            &mut none[..0],
        );
    }
    Err(refusal::BUFFERS)
}

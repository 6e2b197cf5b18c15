// Inspection of spill rows among the staged spills and in the segments table.
#![tactic(auto)]

ghost use Rattle.std.specs.Prelude.{◌≡◌};
ghost use Rattle.buffer_core.specs.Edition.{record_size, row_limit_of};
ghost use Rattle.spill_places.specs.Inspection.{locate_row, inspect_code, inspect_row};

use index_types::{ListCounts, RowEdition};
pub use spill_places::{Located, locate_spill};

// What inspection answers: code 0 beside the row, as a part of the slice that holds it; or the refusal code beside an empty part.
#[derive(Clone, Copy)]
pub struct Inspected<'a> {
    pub code: u8,
    pub row: &'a [u8],
}

// `locate_spill` of two slices borrowed alike.
fn locate_alike<'a>(
    edition: RowEdition,
    key: &[u8; 32],
    staged_counts: ListCounts,
    staged: &'a [u8],
    table_counts: ListCounts,
    table: &'a [u8],
) -> Located
    ensures { result ≡ locate_row (record_size edition) (row_limit_of edition) staged_counts staged.now table_counts table.now key.now }
{
    spill_places::locate_spill(edition, key, staged_counts, staged, table_counts, table)
}

// The row under the key; 12 where the key is missing, 25 where `locate_spill` refuses.
pub fn inspect_spill<'a>(
    edition: RowEdition,
    key: &[u8; 32],
    staged_counts: ListCounts,
    staged: &'a [u8],
    table_counts: ListCounts,
    table: &'a [u8],
) -> Inspected<'a>
    ensures { (result.code ≡ inspect_code (record_size edition) (row_limit_of edition) staged_counts staged.now table_counts table.now key.now)
        × (result.row.now ≡ inspect_row (record_size edition) (row_limit_of edition) staged_counts staged.now table_counts table.now key.now) }
{
    let located = locate_alike(edition, key, staged_counts, staged, table_counts, table);
    let row = spill_places::located_part(edition, staged, table, located);
    let code = spill_places::located_code(located);
    Inspected { code, row }
}

// Where the row under a key stands among the staged spills and in the segments table, and the row there. `spills` exports the search.
#![tactic(auto)]

ghost use Rattle.std.specs.Prelude.{◌≡◌};
ghost use Rattle.buffer_core.specs.Edition.{record_size, row_limit_of};
ghost use Rattle.spill_places.specs.Inspection.{spills_ok, locate_row, located_code, located_row, Within};

use index_types::{ListCounts, RowEdition};
use records::Place;

// Where the row under a key stands, as the index of its record, or the refusal code.
#[derive(Clone, Copy)]
pub enum Located {
    Staged(usize),
    Table(usize),
    Missing,
    Refused(u8),
}

// Whether both lists pass refusal 25.
fn spills_ok(
    edition: RowEdition,
    staged_counts: ListCounts,
    staged: &[u8],
    table_counts: ListCounts,
    table: &[u8],
) -> bool
    ensures { result ≡ spills_ok (record_size edition) (row_limit_of edition) staged_counts staged.now table_counts table.now }
{
    if buffer_checks::spills_ok(edition, staged, staged_counts) {
        return buffer_checks::spills_ok(edition, table, table_counts);
    }
    false
}

// The index of the record with the key, among the staged spills or else in the table; 25 is tested first.
pub fn locate_spill(
    edition: RowEdition,
    key: &[u8; 32],
    staged_counts: ListCounts,
    staged: &[u8],
    table_counts: ListCounts,
    table: &[u8],
) -> Located
    ensures { result ≡ locate_row (record_size edition) (row_limit_of edition) staged_counts staged.now table_counts table.now key.now }
{
    if spills_ok(edition, staged_counts, staged, table_counts, table) {
        let size = buffer_core::record_size(edition);
        let place = records::locate(
            staged,
            staged_counts.count,
            table,
            table_counts.count,
            size,
            key,
        );
        return match place {
            Place::Staged(i) => Located::Staged(i),
            Place::Table(i) => Located::Table(i),
            Place::Missing => Located::Missing,
        };
    }
    Located::Refused(refusal::BUFFERS)
}

// The code of what was located.
pub fn located_code(located: Located) -> u8
    ensures { result ≡ located_code located }
{
    match located {
        Located::Staged(_) => 0,
        Located::Table(_) => 0,
        Located::Missing => refusal::ROW_MISSING,
        Located::Refused(code) => code,
    }
}

// The row at what was located, as a part of the slice that holds it; empty where there is none.
pub fn located_part<'a>(
    edition: RowEdition,
    staged: &'a [u8],
    table: &'a [u8],
    located: Located,
) -> &'a [u8]
    requires { Within (record_size edition) staged.now table.now located }
    ensures { result.now ≡ located_row (record_size edition) staged.now table.now located }
{
    let size = buffer_core::record_size(edition);
    match located {
        Located::Staged(i) => records::row_part(staged, i * size, size),
        Located::Table(i) => records::row_part(table, i * size, size),
        Located::Missing => &table[0..0],
        Located::Refused(_) => &table[0..0],
    }
}

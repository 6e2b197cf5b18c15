// Spill rows among the staged spills and in the segments table.
#![tactic(auto)]

ghost use Rattle.std.specs.Prelude.{◌≡◌, ◌+◌, ◌*◌, ◌≤◌, length};
ghost use Rattle.index_types.specs.declared.RowEdition.TheVariants.{One};
ghost use Rattle.records.specs.Find.{row_at};
ghost use Rattle.buffer_core.specs.Edition.{record_size};
ghost use Rattle.ergo_index_lists.specs.Lists.{named_edition};
ghost use Rattle.ergo_index_inspection.specs.Inspection.{locate_out, locate_call, inspect_out, inspect_call};

use index_types::{ListCounts, RowEdition};
use spills::Located;

// Which list holds the row under a key, and the index of its record there.
#[unsafe(no_mangle)]
pub extern "C" fn ergo_index_locate_spill(
    staged_count: usize,
    staged_capacity: usize,
    staged: &[u8],
    table_count: usize,
    table_capacity: usize,
    table: &[u8],
    key: &[u8; 32],
    list: &mut u8,
    index: &mut usize,
) -> u8
    ensures { locate_out result list.new index.new
        ≡ locate_call One staged_count staged_capacity staged.now table_count table_capacity table.now key.now list.old index.old }
{
    ergo_index_locate_spill_in_edition(
        false,
        staged_count,
        staged_capacity,
        staged,
        table_count,
        table_capacity,
        table,
        key,
        list,
        index,
    )
}

// Which list holds the row under a key, and where the row begins and how long it is; 12 where the key is in neither list.
#[unsafe(no_mangle)]
pub extern "C" fn ergo_index_inspect_spill<'a>(
    staged_count: usize,
    staged_capacity: usize,
    staged: &'a [u8],
    table_count: usize,
    table_capacity: usize,
    table: &'a [u8],
    key: &[u8; 32],
    list: &mut u8,
    offset: &mut usize,
    length: &mut usize,
) -> u8
    ensures { inspect_out result list.new offset.new length.new
        ≡ inspect_call One staged_count staged_capacity staged.now table_count table_capacity table.now key.now list.old offset.old length.old }
{
    ergo_index_inspect_spill_in_edition(
        false,
        staged_count,
        staged_capacity,
        staged,
        table_count,
        table_capacity,
        table,
        key,
        list,
        offset,
        length,
    )
}

// Where the row of a record begins in its list, and how long it is, go to the outs.
fn show_row(edition: RowEdition, list: &[u8], i: usize, start: &mut usize, extent: &mut usize)
    requires { i * record_size edition + record_size edition ≤ length list.now }
    ensures { (start.new ≡ i * record_size edition + 34) × (extent.new ≡ length (row_at (record_size edition) i list.now)) }
{
    let size = buffer_core::record_size(edition);
    let at = i * size;
    let row = records::row_part(list, at, size);
    *start = at + 34;
    *extent = row.len();
}

// ---- with rows of the edition that the flag names

// A row located, in a list of the edition that the flag names.
#[unsafe(no_mangle)]
pub extern "C" fn ergo_index_locate_spill_in_edition(
    second_edition: bool,
    staged_count: usize,
    staged_capacity: usize,
    staged: &[u8],
    table_count: usize,
    table_capacity: usize,
    table: &[u8],
    key: &[u8; 32],
    list: &mut u8,
    index: &mut usize,
) -> u8
    ensures { locate_out result list.new index.new
        ≡ locate_call (named_edition second_edition) staged_count staged_capacity staged.now table_count table_capacity table.now key.now list.old index.old }
{
    let edition = ergo_index_lists::named_edition(second_edition);
    let staged_counts = ListCounts {
        count: staged_count,
        capacity: staged_capacity,
    };
    let table_counts = ListCounts {
        count: table_count,
        capacity: table_capacity,
    };
    let located = spills::locate_spill(edition, key, staged_counts, staged, table_counts, table);
    match located {
        Located::Staged(i) => {
            *list = 1;
            *index = i;
            0
        }
        Located::Table(i) => {
            *list = 2;
            *index = i;
            0
        }
        Located::Missing => {
            *list = 0;
            *index = 0;
            0
        }
        Located::Refused(code) => code,
    }
}

// A row inspected, in a list of the edition that the flag names.
#[unsafe(no_mangle)]
pub extern "C" fn ergo_index_inspect_spill_in_edition<'a>(
    second_edition: bool,
    staged_count: usize,
    staged_capacity: usize,
    staged: &'a [u8],
    table_count: usize,
    table_capacity: usize,
    table: &'a [u8],
    key: &[u8; 32],
    list: &mut u8,
    offset: &mut usize,
    length: &mut usize,
) -> u8
    ensures { inspect_out result list.new offset.new length.new
        ≡ inspect_call (named_edition second_edition) staged_count staged_capacity staged.now table_count table_capacity table.now key.now list.old offset.old length.old }
{
    let edition = ergo_index_lists::named_edition(second_edition);
    let staged_counts = ListCounts {
        count: staged_count,
        capacity: staged_capacity,
    };
    let table_counts = ListCounts {
        count: table_count,
        capacity: table_capacity,
    };
    let located = spills::locate_spill(edition, key, staged_counts, staged, table_counts, table);
    match located {
        Located::Staged(i) => {
            *list = 1;
            show_row(edition, staged, i, offset, length);
            0
        }
        Located::Table(i) => {
            *list = 2;
            show_row(edition, table, i, offset, length);
            0
        }
        Located::Missing => refusal::ROW_MISSING,
        Located::Refused(code) => code,
    }
}

// The rows of a tally: the figures of one row, of all rows from spill 0 up on top of those counted so far, and the check of all rows.
#![tactic(auto)]

ghost use Rattle.std.specs.Prelude.{◌≡◌, true, ◌*◌, ◌≤◌, ◌<◌, length};
ghost use Rattle.index_types.specs.Limits.{segment_threshold};
ghost use Rattle.records.specs.Records.{keys};
ghost use Rattle.records.specs.Find.{distinct};
ghost use Rattle.buffer_core.specs.Edition.{edition_of, record_size};
ghost use Rattle.buffer_core.specs.Spills.{sources};
ghost use Rattle.buffer_core.specs.Rows.{rows_up};
ghost use Rattle.buffer_core.specs.Flip.{row_checked};
ghost use Rattle.spill_rows.specs.Internal.{read_of};
ghost use Rattle.row_tallies.specs.Internal.{counted, tally_rows};

use index_types::{RowEdition, SEGMENT_THRESHOLD, Tallied, Tally};
use spill_rows::Read;

// The figures of the row of a spill number, or the row's refusal code.
fn count_row<'a>(
    edition: RowEdition,
    parent: &[u8; 32],
    number: usize,
    staged: &'a [u8],
    staged_count: usize,
    table: &'a [u8],
    table_count: usize,
    hints: &[u16],
) -> Tallied
    requires { (staged_count * record_size edition ≤ length staged.now) × (table_count * record_size edition ≤ length table.now) × (number < 2147483648)
        × (distinct (keys (record_size edition) table_count table.now) ≡ true) }
    ensures { result ≡ counted (row_checked (edition_of edition) (sources parent.now staged.now staged_count table.now table_count) number) }
{
    let mut row = [0i64; SEGMENT_THRESHOLD];
    let read = spill_rows::read_checked(
        edition,
        parent,
        number,
        staged,
        staged_count,
        table,
        table_count,
        hints,
        &mut row,
    );
    match read {
        Ok(()) => Ok(entry_tallies::tally_entries(&row, SEGMENT_THRESHOLD)),
        Err(code) => Err(code),
    }
}

// Counts the entries of all rows from spill 0 up, on top of those counted so far.
pub fn count_rows<'a>(
    edition: RowEdition,
    parent: &[u8; 32],
    spills: usize,
    so_far: Tally,
    staged: &'a [u8],
    staged_count: usize,
    table: &'a [u8],
    table_count: usize,
    hints: &[u16],
) -> Tallied
    requires { (staged_count * record_size edition ≤ length staged.now) × (table_count * record_size edition ≤ length table.now) × (spills < 2147483648)
        × (so_far.unspent ≤ segment_threshold) × (so_far.spent ≤ segment_threshold) × (so_far.unknown ≤ segment_threshold) × (distinct (keys (record_size edition) table_count table.now) ≡ true) }
    ensures { result ≡ tally_rows (row_checked (edition_of edition) (sources parent.now staged.now staged_count table.now table_count)) 0 spills so_far }
{
    let mut t = so_far;
    for n in 0..spills {
        let row = count_row(
            edition,
            parent,
            n,
            staged,
            staged_count,
            table,
            table_count,
            hints,
        );
        match row {
            Ok(more) => {
                t = entry_tallies::plus(t, more);
            }
            Err(code) => {
                return Err(code);
            }
        }
    }
    Ok(t)
}

// Checks every row from spill 0 up, and counts nothing.
pub fn check_rows<'a>(
    edition: RowEdition,
    parent: &[u8; 32],
    rows: usize,
    staged: &'a [u8],
    staged_count: usize,
    table: &'a [u8],
    table_count: usize,
    hints: &[u16],
) -> Read
    requires { (staged_count * record_size edition ≤ length staged.now) × (table_count * record_size edition ≤ length table.now) × (rows < 2147483648)
        × (distinct (keys (record_size edition) table_count table.now) ≡ true) }
    ensures { result ≡ read_of (rows_up (row_checked (edition_of edition) (sources parent.now staged.now staged_count table.now table_count)) 0 rows) }
{
    let none = Tally {
        unspent: 0,
        spent: 0,
        unknown: 0,
    };
    let tallied = count_rows(
        edition,
        parent,
        rows,
        none,
        staged,
        staged_count,
        table,
        table_count,
        hints,
    );
    match tallied {
        Ok(_) => Ok(()),
        Err(code) => Err(code),
    }
}

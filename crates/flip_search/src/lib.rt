// The halving over a parent's spill numbers: the newest row whose first absolute value is at most the target.
// It takes hints of where the table's records may stand (`record_hints`).
#![tactic(auto)]

ghost use Rattle.std.specs.Prelude.{◌≡◌, true, ◌*◌, ◌≤◌, ◌<◌, length};
ghost use Rattle.records.specs.Records.{keys};
ghost use Rattle.records.specs.Find.{distinct};
ghost use Rattle.buffer_core.specs.Edition.{edition_of, record_size};
ghost use Rattle.buffer_core.specs.Spills.{sources};
ghost use Rattle.buffer_core.specs.Flip.{lead_at, search_in};

use buffer_core::{Lead, Low};
use index_types::{RowEdition, SEGMENT_THRESHOLD};

// The absolute value of the first number of a row.
pub fn lead_of<'a>(
    edition: RowEdition,
    parent: &[u8; 32],
    number: usize,
    staged: &'a [u8],
    staged_count: usize,
    table: &'a [u8],
    table_count: usize,
    hints: &[u16],
) -> Lead
    requires { (staged_count * record_size edition ≤ length staged.now) × (table_count * record_size edition ≤ length table.now) × (number < 2147483648)
        × (distinct (keys (record_size edition) table_count table.now) ≡ true) }
    ensures { result ≡ lead_at (edition_of edition) (sources parent.now staged.now staged_count table.now table_count) number }
{
    let mut row = [0i64; SEGMENT_THRESHOLD];
    let read = spill_rows::read_checked(
        edition,
        parent,
        number,
        staged,
        staged_count,
        table,
        table_count,
        hints,
        &mut row,
    );
    read?;
    Ok(signed::magnitude(row[0]))
}

// How many rows, from spill 0 on, lie at or before the newest whose first absolute value is at most the target.
pub fn search<'a>(
    edition: RowEdition,
    parent: &[u8; 32],
    staged: &'a [u8],
    staged_count: usize,
    table: &'a [u8],
    table_count: usize,
    hints: &[u16],
    target: u64,
    low: usize,
    high: usize,
) -> Low
    requires { (staged_count * record_size edition ≤ length staged.now) × (table_count * record_size edition ≤ length table.now) × (high < 2147483648)
        × (distinct (keys (record_size edition) table_count table.now) ≡ true) }
    ensures { result ≡ search_in (lead_at (edition_of edition) (sources parent.now staged.now staged_count table.now table_count)) target low high }
{
    if low < high {
        let middle = low + (high - low) / 2;
        let lead = lead_of(
            edition,
            parent,
            middle,
            staged,
            staged_count,
            table,
            table_count,
            hints,
        );
        match lead {
            Ok(first) => {
                if first <= target {
                    search(
                        edition,
                        parent,
                        staged,
                        staged_count,
                        table,
                        table_count,
                        hints,
                        target,
                        middle + 1,
                        high,
                    )
                } else {
                    search(
                        edition,
                        parent,
                        staged,
                        staged_count,
                        table,
                        table_count,
                        hints,
                        target,
                        low,
                        middle,
                    )
                }
            }
            Err(code) => Err(code),
        }
    } else {
        Ok(low)
    }
}

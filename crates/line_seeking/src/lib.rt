// The first row that is neither staged nor among the records borrowed as the table, of those that a spend or an unspend reads by a summary.
#![tactic(auto)]

ghost use Rattle.std.specs.Prelude.{◌≡◌, true, false, ◌+◌, ◌*◌, ◌<◌, ◌≤◌, ltb, length, take};
ghost use Rattle.index_types.specs.Limits.{segment_threshold, summary_line};
ghost use Rattle.entries.specs.Order.{order_ok};
ghost use Rattle.entries.specs.Flip.{position};
ghost use Rattle.segment_id.specs.declared.Kind.TheVariants.{Box};
ghost use Rattle.buffer_core.specs.Edition.{edition_of};
ghost use Rattle.buffer_core.specs.Spills.{sources};
ghost use Rattle.buffer_core.specs.Flip.{look_by, row_checked};
ghost use Rattle.summary_core.specs.Flip.{look_in_row, line_look};
ghost use Rattle.working_summaries.specs.Reads.{line_reads, in_lines_reads};
ghost use Rattle.row_seeking.specs.Seeking.{among};
ghost use Rattle.row_seeking.specs.Internal.{WorkReady};

use buffer_core::Look;
use entries::Position;
use index_types::{RowEdition, SEGMENT_THRESHOLD};
use segment_id::Kind;

// What the numbers of a row show, which are in order. `first` is the first absolute value of the row's line.
fn look_by(row: &[i64], first: u64, target: u64, spend: bool) -> Look
    requires { (length row.now ≡ segment_threshold) × (order_ok (take segment_threshold row.now) ≡ true) }
    ensures { result ≡ look_by (position spend target row.now 0 false) (ltb first target) }
{
    let position = entry_flips::flip_position(row, SEGMENT_THRESHOLD, target, spend);
    match position {
        Position::At(i) => Look::Take(i),
        Position::Seen => {
            if first < target {
                Look::Stop(true)
            } else {
                Look::Next(true)
            }
        }
        Position::Absent => {
            if first < target {
                Look::Stop(false)
            } else {
                Look::Next(false)
            }
        }
    }
}

// What the row of a spill number shows.
fn look_in_row<'a>(
    edition: RowEdition,
    parent: &[u8; 32],
    number: usize,
    staged: &'a [u8],
    staged_count: usize,
    table: &'a [u8],
    table_count: usize,
    hints: &[u16],
    first: u64,
    target: u64,
    spend: bool,
) -> Look
    requires { WorkReady edition (sources parent.now staged.now staged_count table.now table_count) × (number < 2147483648) }
    ensures { result ≡ look_in_row (row_checked (edition_of edition) (sources parent.now staged.now staged_count table.now table_count) number) target spend (ltb first target) }
{
    let mut row = [0i64; SEGMENT_THRESHOLD];
    let read = spill_rows::read_checked(
        edition,
        parent,
        number,
        staged,
        staged_count,
        table,
        table_count,
        hints,
        &mut row,
    );
    match read {
        Ok(()) => look_by(&row, first, target, spend),
        Err(code) => Look::Fail(code),
    }
}

// What a line shows, and its row if it is searched.
fn look_line<'a>(
    edition: RowEdition,
    parent: &[u8; 32],
    number: usize,
    staged: &'a [u8],
    staged_count: usize,
    table: &'a [u8],
    table_count: usize,
    hints: &[u16],
    summary: &[u64],
    target: u64,
    spend: bool,
) -> Look
    requires { WorkReady edition (sources parent.now staged.now staged_count table.now table_count) × (number < 2147483648)
        × (number * summary_line + summary_line ≤ length summary.now) }
    ensures { result ≡ line_look (edition_of edition) (sources parent.now staged.now staged_count table.now table_count) summary.now target spend number }
{
    let last = summary_lines::number_at(summary, number, 1);
    if last < target {
        return Look::Stop(false);
    }
    let first = summary_lines::number_at(summary, number, 0);
    look_in_row(
        edition,
        parent,
        number,
        staged,
        staged_count,
        table,
        table_count,
        hints,
        first,
        target,
        spend,
    )
}

// The first missing row of the walk over the lines below a number.
fn seek_below<'a>(
    edition: RowEdition,
    parent: &[u8; 32],
    staged: &'a [u8],
    staged_count: usize,
    table: &'a [u8],
    table_count: usize,
    hints: &[u16],
    summary: &[u64],
    target: u64,
    spend: bool,
    from: usize,
) -> Option<usize>
    requires { WorkReady edition (sources parent.now staged.now staged_count table.now table_count) × (from < 2147483648)
        × (from * summary_line ≤ length summary.now) }
    ensures { result ≡ among (edition_of edition) Box (sources parent.now staged.now staged_count table.now table_count)
        (line_reads (edition_of edition) (sources parent.now staged.now staged_count table.now table_count) summary.now target spend from) }
{
    for low in (0..from).rev() {
        let look = look_line(
            edition,
            parent,
            low,
            staged,
            staged_count,
            table,
            table_count,
            hints,
            summary,
            target,
            spend,
        );
        match look {
            Look::Take(_) => {
                return None;
            }
            Look::Stop(_) => {
                return None;
            }
            Look::Next(_) => {}
            Look::Fail(_) => {
                return row_seeking::ask(
                    edition,
                    Kind::Box,
                    parent,
                    low,
                    staged,
                    staged_count,
                    table,
                    table_count,
                    hints,
                );
            }
        }
    }
    None
}

// The first missing row of the walk behind the halving over the lines, which reads none.
pub fn seek_lines<'a>(
    edition: RowEdition,
    parent: &[u8; 32],
    staged: &'a [u8],
    staged_count: usize,
    table: &'a [u8],
    table_count: usize,
    hints: &[u16],
    summary: &[u64],
    target: u64,
    spend: bool,
    spills: usize,
) -> Option<usize>
    requires { WorkReady edition (sources parent.now staged.now staged_count table.now table_count) × (spills < 2147483648)
        × (spills * summary_line ≤ length summary.now) }
    ensures { result ≡ among (edition_of edition) Box (sources parent.now staged.now staged_count table.now table_count)
        (in_lines_reads (edition_of edition) (sources parent.now staged.now staged_count table.now table_count) summary.now target spend spills) }
{
    let low = summary_search::search(summary, target, 0, spills);
    seek_below(
        edition,
        parent,
        staged,
        staged_count,
        table,
        table_count,
        hints,
        summary,
        target,
        spend,
        low,
    )
}

// A summary made afresh, once refusal 25 has passed. Every row is checked first, from spill 0 up, so that a refused call leaves the summary; then the lines are
// written, and zeros behind them.
#![tactic(auto)]

ghost use Rattle.std.specs.Prelude.{◌≡◌, true, ◌+◌, ◌*◌, ◌-◌, ◌≤◌, ◌<◌, length, take, replicate};
ghost use Rattle.index_types.specs.Limits.{summary_line};
ghost use Rattle.stores.specs.Stores.{write};
ghost use Rattle.records.specs.Records.{keys};
ghost use Rattle.records.specs.Find.{distinct};
ghost use Rattle.buffer_core.specs.Edition.{edition_of, record_size};
ghost use Rattle.buffer_core.specs.Spills.{sources};
ghost use Rattle.buffer_core.specs.Rows.{rows_up};
ghost use Rattle.buffer_core.specs.Flip.{row_checked};
ghost use Rattle.flip_core.specs.Internal.{FlipReady};
ghost use Rattle.summary_core.specs.Lines.{with_summary};
ghost use Rattle.summary_core.specs.Making.{put_lines, summary_core};
ghost use Rattle.summary_rows.specs.Internal.{row_line, row_lines};

use index_types::{
    HeadCounts, ListCounts, RowEdition, SEGMENT_THRESHOLD, SUMMARY_LINE, Summarized,
};
use record_hints::{FEW_RECORDS, HINTS};

// Writes the line of the row of a spill number. A refused row writes nothing; none is met, since all are checked before.
fn put_row<'a>(
    edition: RowEdition,
    parent: &[u8; 32],
    number: usize,
    staged: &'a [u8],
    staged_count: usize,
    table: &'a [u8],
    table_count: usize,
    hints: &[u16],
    summary: &mut [u64],
)
    requires { (staged_count * record_size edition ≤ length staged.now) × (table_count * record_size edition ≤ length table.now) × (number < 2147483648)
        × (distinct (keys (record_size edition) table_count table.now) ≡ true) × (number * summary_line + summary_line ≤ length summary.old) }
    ensures { summary.new
        ≡ row_line (row_checked (edition_of edition) (sources parent.now staged.now staged_count table.now table_count) number) number summary.old }
{
    let mut row = [0i64; SEGMENT_THRESHOLD];
    let read = spill_rows::read_checked(
        edition,
        parent,
        number,
        staged,
        staged_count,
        table,
        table_count,
        hints,
        &mut row,
    );
    match read {
        Ok(()) => {
            let line = summary_lines::line_of(&row);
            summary_lines::put_line(summary, number, line);
        }
        Err(_) => {}
    }
}

// Writes the lines of all rows, from spill 0 up.
fn put_rows<'a>(
    edition: RowEdition,
    parent: &[u8; 32],
    spills: usize,
    staged: &'a [u8],
    staged_count: usize,
    table: &'a [u8],
    table_count: usize,
    hints: &[u16],
    summary: &mut [u64],
)
    requires { (staged_count * record_size edition ≤ length staged.now) × (table_count * record_size edition ≤ length table.now) × (spills < 2147483648)
        × (distinct (keys (record_size edition) table_count table.now) ≡ true) × (spills * summary_line ≤ length summary.old) }
    ensures { summary.new
        ≡ row_lines (row_checked (edition_of edition) (sources parent.now staged.now staged_count table.now table_count)) 0 spills summary.old }
{
    for n in 0..spills {
        put_row(
            edition,
            parent,
            n,
            staged,
            staged_count,
            table,
            table_count,
            hints,
            summary,
        );
    }
}

// Writes the lines of all rows, and zeros on the lines that no spill has.
fn put_lines<'a>(
    edition: RowEdition,
    parent: &[u8; 32],
    spills: usize,
    staged: &'a [u8],
    staged_count: usize,
    table: &'a [u8],
    table_count: usize,
    hints: &[u16],
    lines: usize,
    summary: &mut [u64],
)
    requires { (staged_count * record_size edition ≤ length staged.now) × (table_count * record_size edition ≤ length table.now) × (spills < 2147483648)
        × (distinct (keys (record_size edition) table_count table.now) ≡ true) × (spills ≤ lines) × (lines * summary_line ≤ length summary.old) }
    ensures { summary.new
        ≡ write (spills * summary_line) (replicate ((lines - spills) * summary_line) 0)
        (row_lines (row_checked (edition_of edition) (sources parent.now staged.now staged_count table.now table_count)) 0 spills summary.old) }
{
    put_rows(
        edition,
        parent,
        spills,
        staged,
        staged_count,
        table,
        table_count,
        hints,
        summary,
    );
    let free = lines - spills;
    summary_lines::clear_places(summary, spills * SUMMARY_LINE, free * SUMMARY_LINE);
}

// The rows are checked, then the summary is written.
fn summarize_hinted<'a>(
    edition: RowEdition,
    parent: &[u8; 32],
    spills: usize,
    staged: &'a [u8],
    staged_count: usize,
    table: &'a [u8],
    table_count: usize,
    hints: &[u16],
    lines: usize,
    summary: &mut [u64],
) -> Summarized
    requires { (staged_count * record_size edition ≤ length staged.now) × (table_count * record_size edition ≤ length table.now) × (spills < 2147483648)
        × (distinct (keys (record_size edition) table_count table.now) ≡ true) × (spills ≤ lines) × (lines * summary_line ≤ length summary.old) }
    ensures { with_summary result summary.new
        ≡ put_lines (rows_up (row_checked (edition_of edition) (sources parent.now staged.now staged_count table.now table_count)) 0 spills)
        spills lines summary.old }
{
    let read = tally_core::check_rows(
        edition,
        parent,
        spills,
        staged,
        staged_count,
        table,
        table_count,
        hints,
    );
    match read {
        Ok(()) => {
            put_lines(
                edition,
                parent,
                spills,
                staged,
                staged_count,
                table,
                table_count,
                hints,
                lines,
                summary,
            );
            Ok(())
        }
        Err(code) => Err(code),
    }
}

// The summary of the rows, or the code of the first row that is refused.
fn summarize_spills<'a>(
    edition: RowEdition,
    parent: &[u8; 32],
    spills: usize,
    staged: &'a [u8],
    staged_count: usize,
    table: &'a [u8],
    table_count: usize,
    lines: usize,
    summary: &mut [u64],
) -> Summarized
    requires { (staged_count * record_size edition ≤ length staged.now) × (table_count * record_size edition ≤ length table.now) × (spills < 2147483648)
        × (distinct (keys (record_size edition) table_count table.now) ≡ true) × (spills ≤ lines) × (lines * summary_line ≤ length summary.old) }
    ensures { with_summary result summary.new
        ≡ put_lines (rows_up (row_checked (edition_of edition) (sources parent.now staged.now staged_count table.now table_count)) 0 spills)
        spills lines summary.old }
{
    if table_count <= FEW_RECORDS {
        let none = [0u16; 1];
        return summarize_hinted(
            edition,
            parent,
            spills,
            staged,
            staged_count,
            table,
            table_count,
            &none[..0],
            lines,
            summary,
        );
    }
    let mut hints = [0u16; HINTS];
    let size = buffer_core::record_size(edition);
    record_hints::note_places(table, size, table_count, &mut hints);
    summarize_hinted(
        edition,
        parent,
        spills,
        staged,
        staged_count,
        table,
        table_count,
        &hints,
        lines,
        summary,
    )
}

// 10, 11, 36, then the rows.
pub fn summarize<'a>(
    edition: RowEdition,
    parent: &[u8; 32],
    counts: HeadCounts,
    head: &[i64],
    staged_counts: ListCounts,
    staged: &'a [u8],
    table_counts: ListCounts,
    table: &'a [u8],
    lines: usize,
    summary: &mut [u64],
) -> Summarized
    requires { FlipReady edition counts staged_counts staged.now table_counts table.now head.now × (lines * summary_line ≤ length summary.old) }
    ensures { with_summary result summary.new
        ≡ summary_core (edition_of edition) (sources parent.now staged.now staged_counts.count table.now table_counts.count)
        counts.spills (take counts.len head.now) lines summary.old }
{
    let len = counts.len;
    let spills = counts.spills;
    if !entry_order::order_ok(head, len) {
        return Err(refusal::HEAD_OUT_OF_ORDER);
    }
    if signed::is_negative_i32(spills) {
        return Err(refusal::NEGATIVE_SPILL_COUNT);
    }
    let rows = signed::usize_from_i32(spills);
    if lines < rows {
        return Err(refusal::SUMMARY_TOO_SHORT);
    }
    summarize_spills(
        edition,
        parent,
        rows,
        staged,
        staged_counts.count,
        table,
        table_counts.count,
        lines,
        summary,
    )
}

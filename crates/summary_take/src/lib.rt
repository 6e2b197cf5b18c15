// A match in a row that was read, with a summary: the row is staged with the entry negated, and its line is made anew from the row as it is staged.
#![tactic(auto)]

ghost use Rattle.std.specs.Prelude.{◌≡◌, true, cond, ◌+◌, ◌*◌, ◌≤◌, ◌<◌, pos, length};
ghost use Rattle.index_types.specs.Limits.{segment_threshold, summary_line};
ghost use Rattle.segment_id.specs.Key.{row_key};
ghost use Rattle.segment_id.specs.declared.Kind.TheVariants.{Box};
ghost use Rattle.buffer_core.specs.declared.Walk.TheVariants.{Hit};
ghost use Rattle.buffer_core.specs.Edition.{good, edition_of};
ghost use Rattle.buffer_core.specs.Spills.{sources};
ghost use Rattle.buffer_core.specs.Flip.{row_checked};
ghost use Rattle.flip_stage.specs.Internal.{RowsReady, Takes};
ghost use Rattle.summary_core.specs.Lines.{put_line};
ghost use Rattle.summary_core.specs.Flip.{after_lines};
ghost use Rattle.summary_lines.specs.Internal.{line_numbers};
ghost use Rattle.summary_take.specs.Internal.{is_done, StagesLines};

use index_types::{Flipped, ListCounts, RowEdition};
use summary_lines::Line;

// Whether a row was staged.
fn is_done(flipped: Flipped) -> bool
    ensures { result ≡ is_done flipped }
{
    match flipped {
        Ok(_) => true,
        Err(_) => false,
    }
}

// Writes the line of a row, if the row was staged.
fn put_staged(staged: bool, number: usize, line: Line, summary: &mut [u64])
    requires { number * summary_line + summary_line ≤ length summary.old }
    ensures { summary.new ≡ cond staged (put_line number (line_numbers line) summary.old) summary.old }
{
    if staged {
        summary_lines::put_line(summary, number, line);
    }
}

// Stages the row of a spill number with the entry at a place negated, and writes its line. The row's numbers are given, and come back with the entry negated.
pub fn take_entry(
    edition: RowEdition,
    parent: &[u8; 32],
    number: usize,
    key: &[u8],
    at: usize,
    row: &mut [i64],
    staged_counts: ListCounts,
    staged: &mut [u8],
    table_count: usize,
    table: &[u8],
    summary: &mut [u64],
) -> Flipped
    requires { RowsReady edition staged_counts staged.old table_count table.now × (number < 2147483648) × (key.now ≡ row_key parent.now Box (pos number)) × (length key.now ≡ 32)
        × (row_checked (edition_of edition) (sources parent.now staged.old staged_counts.count table.now table_count) number ≡ good row.old)
        × Takes (good row.old) at × (length row.old ≡ segment_threshold) × (number * summary_line + summary_line ≤ length summary.old) }
    ensures { StagesLines edition (after_lines (edition_of edition) (sources parent.now staged.old staged_counts.count table.now table_count)
        staged_counts.capacity summary.old (Hit number at)) staged_counts staged.old result staged.new summary.new }
{
    let none = [0u16; 1];
    entry_flips::flip_at(row, at);
    let line = summary_lines::line_of(row);
    let flipped = flip_stage::stage_under(
        edition,
        parent,
        number,
        key,
        at,
        staged_counts,
        staged,
        table_count,
        table,
        &none[..0],
    );
    put_staged(is_done(flipped), number, line, summary);
    flipped
}

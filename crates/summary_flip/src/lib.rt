// Spend and unspend with a summary, once refusal 25 is tested: one core with the direction as a parameter. The rows are found over the lines of the summary, so
// that none is read but those that the walk searches.
#![tactic(auto)]

ghost use Rattle.std.specs.Prelude.{◌≡◌, true, false, ◌*◌, ◌≤◌, ◌<◌, length, take};
ghost use Rattle.index_types.specs.Limits.{summary_line};
ghost use Rattle.entries.specs.Order.{order_ok};
ghost use Rattle.entries.specs.Flip.{position};
ghost use Rattle.buffer_core.specs.Edition.{edition_of};
ghost use Rattle.buffer_core.specs.Spills.{sources};
ghost use Rattle.buffer_core.specs.Flip.{flipping};
ghost use Rattle.flip_stage.specs.Internal.{RowsReady};
ghost use Rattle.flip_core.specs.Internal.{FlipReady};
ghost use Rattle.summary_core.specs.Lines.{with_summary};
ghost use Rattle.summary_core.specs.Flip.{in_lines, head_or_lines, done_lines, flip_lines_core};
ghost use Rattle.summary_take.specs.Internal.{StagesLines};

use buffer_core::Direction;
use entries::Position;
use index_types::{Flipped, HeadCounts, ListCounts, RowEdition};

// The halving and the walk over the lines.
fn flip_rows(
    edition: RowEdition,
    parent: &[u8; 32],
    target: u64,
    spend: bool,
    spills: usize,
    seen: bool,
    staged_counts: ListCounts,
    staged: &mut [u8],
    table_count: usize,
    table: &[u8],
    summary: &mut [u64],
) -> Flipped
    requires { RowsReady edition staged_counts staged.old table_count table.now × (spills < 2147483648) × (target < 9223372036854775808)
        × (spills * summary_line ≤ length summary.old) }
    ensures { StagesLines edition (in_lines (edition_of edition) (sources parent.now staged.old staged_counts.count table.now table_count)
        staged_counts.capacity target spend spills summary.old seen) staged_counts staged.old result staged.new summary.new }
{
    let low = summary_search::search(summary, target, 0, spills);
    summary_walk::walk_down(
        edition,
        parent,
        target,
        spend,
        low,
        seen,
        staged_counts,
        staged,
        table_count,
        table,
        summary,
    )
}

// The head first, which is in order, then the lines.
fn flip_in_order(
    edition: RowEdition,
    parent: &[u8; 32],
    target: u64,
    spend: bool,
    len: usize,
    spills: usize,
    staged_counts: ListCounts,
    staged: &mut [u8],
    table_count: usize,
    table: &[u8],
    head: &mut [i64],
    summary: &mut [u64],
) -> Flipped
    requires { RowsReady edition staged_counts staged.old table_count table.now × (spills < 2147483648) × (target < 9223372036854775808) × (len ≤ length head.old)
        × (order_ok (take len head.old) ≡ true) × (spills * summary_line ≤ length summary.old) }
    ensures { with_summary (flipping result head.new staged.new) summary.new
        ≡ done_lines (edition_of edition) (head_or_lines (position spend target (take len head.old) 0 false)
        (in_lines (edition_of edition) (sources parent.now staged.old staged_counts.count table.now table_count) staged_counts.capacity target spend spills summary.old)
        summary.old) staged_counts head.old staged.old }
{
    let position = entry_flips::flip_position(head, len, target, spend);
    match position {
        Position::At(i) => {
            entry_flips::flip_at(head, i);
            Ok(staged_counts)
        }
        Position::Seen => flip_rows(
            edition,
            parent,
            target,
            spend,
            spills,
            true,
            staged_counts,
            staged,
            table_count,
            table,
            summary,
        ),
        Position::Absent => flip_rows(
            edition,
            parent,
            target,
            spend,
            spills,
            false,
            staged_counts,
            staged,
            table_count,
            table,
            summary,
        ),
    }
}

// A spend or an unspend: 9, 10, 11, 36, then the head and the lines.
pub fn flip(
    edition: RowEdition,
    direction: Direction,
    parent: &[u8; 32],
    counts: HeadCounts,
    target: i64,
    staged_counts: ListCounts,
    staged: &mut [u8],
    table_counts: ListCounts,
    table: &[u8],
    head: &mut [i64],
    lines: usize,
    summary: &mut [u64],
) -> Flipped
    requires { FlipReady edition counts staged_counts staged.old table_counts table.now head.old × (lines * summary_line ≤ length summary.old) }
    ensures { with_summary (flipping result head.new staged.new) summary.new
        ≡ flip_lines_core (edition_of edition) direction parent.now counts target staged_counts staged.old table_counts table.now head.old
        lines summary.old }
{
    let size = signed::magnitude(target);
    let len = counts.len;
    let spills = counts.spills;
    let table_count = table_counts.count;
    if 9223372036854775808 <= size {
        return Err(refusal::TARGET_IS_MINIMUM);
    }
    if !entry_order::order_ok(head, len) {
        return Err(refusal::HEAD_OUT_OF_ORDER);
    }
    if signed::is_negative_i32(spills) {
        return Err(refusal::NEGATIVE_SPILL_COUNT);
    }
    let rows = signed::usize_from_i32(spills);
    if lines < rows {
        return Err(refusal::SUMMARY_TOO_SHORT);
    }
    flip_in_order(
        edition,
        parent,
        size,
        flip_core::is_spend(direction),
        len,
        rows,
        staged_counts,
        staged,
        table_count,
        table,
        head,
        summary,
    )
}

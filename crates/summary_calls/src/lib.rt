// Pops, spends and unspends of boxes with a summary, for any buffers: refusal 25 is tested, then the core is called.
#![tactic(auto)]

ghost use Rattle.std.specs.Prelude.{◌≡◌};
ghost use Rattle.buffer_core.specs.Edition.{edition_of};
ghost use Rattle.buffer_core.specs.Pop.{popping, lists};
ghost use Rattle.buffer_core.specs.Flip.{flipping};
ghost use Rattle.summary_core.specs.Lines.{with_summary};
ghost use Rattle.summary_core.specs.Moves.{pop_lines_of};
ghost use Rattle.summary_core.specs.Flip.{flip_lines_of};

use buffer_core::Direction;
use index_types::{Flipped, HeadCounts, ListCounts, Popped, RowEdition};

// A pop of a box number, as a plain number.
pub fn pop_entry(
    edition: RowEdition,
    parent: &[u8; 32],
    counts: HeadCounts,
    head: &mut [i64],
    staged_counts: ListCounts,
    staged: &mut [u8],
    table_counts: ListCounts,
    table: &[u8],
    deleted_counts: ListCounts,
    deleted: &mut [u8],
    lines: usize,
    summary: &mut [u64],
) -> Popped
    ensures { with_summary (popping result head.new staged.new deleted.new) summary.new
        ≡ pop_lines_of (edition_of edition) parent.now counts
        (lists staged_counts staged.old table_counts table.now deleted_counts deleted.old) head.old lines summary.old }
{
    if summary_checks::pop_ok(
        edition,
        counts,
        head,
        staged_counts,
        staged,
        table_counts,
        table,
        deleted_counts,
        deleted,
        lines,
        summary,
    ) {
        return summary_pop::pop(
            edition,
            parent,
            counts,
            head,
            staged_counts,
            staged,
            table_counts,
            table,
            deleted_counts,
            deleted,
            lines,
            summary,
        );
    }
    Err(refusal::BUFFERS)
}

// A spend or an unspend, as the direction says.
pub fn flip_entry(
    edition: RowEdition,
    direction: Direction,
    parent: &[u8; 32],
    counts: HeadCounts,
    head: &mut [i64],
    target: i64,
    staged_counts: ListCounts,
    staged: &mut [u8],
    table_counts: ListCounts,
    table: &[u8],
    lines: usize,
    summary: &mut [u64],
) -> Flipped
    ensures { with_summary (flipping result head.new staged.new) summary.new
        ≡ flip_lines_of (edition_of edition) direction parent.now counts target staged_counts staged.old table_counts table.now head.old lines summary.old }
{
    if summary_checks::flip_ok(
        edition,
        counts,
        staged_counts,
        staged,
        table_counts,
        table,
        head,
        lines,
        summary,
    ) {
        return summary_flip::flip(
            edition,
            direction,
            parent,
            counts,
            target,
            staged_counts,
            staged,
            table_counts,
            table,
            head,
            lines,
            summary,
        );
    }
    Err(refusal::BUFFERS)
}

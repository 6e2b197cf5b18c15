// A pop of a box number with a summary, once refusal 25 has passed: 36, the pop as it is without a summary, then the vacated line is cleared.
#![tactic(auto)]

ghost use Rattle.std.specs.Prelude.{◌≡◌, false, ◌*◌, ◌≤◌, length};
ghost use Rattle.index_types.specs.Limits.{segment_threshold, summary_line};
ghost use Rattle.segment_id.specs.declared.Kind.TheVariants.{Box};
ghost use Rattle.buffer_core.specs.Edition.{edition_of};
ghost use Rattle.buffer_core.specs.Pop.{popping, lists, pop_core};
ghost use Rattle.pop_row.specs.Internal.{PopReady};
ghost use Rattle.summary_core.specs.Lines.{with_summary};
ghost use Rattle.summary_core.specs.Moves.{too_few_lines, after_pop, pop_lines};

use index_types::{HeadCounts, ListCounts, Popped, RowEdition};
use segment_id::Kind;

// A pop from an empty head, which takes the newest row.
fn pop_from_empty(
    edition: RowEdition,
    parent: &[u8; 32],
    counts: HeadCounts,
    head: &mut [i64],
    staged_counts: ListCounts,
    staged: &mut [u8],
    table_counts: ListCounts,
    table: &[u8],
    deleted_counts: ListCounts,
    deleted: &mut [u8],
    lines: usize,
    summary: &mut [u64],
) -> Popped
    requires { (counts.len ≤ 0) × PopReady edition (lists staged_counts staged.old table_counts table.now deleted_counts deleted.old) head.old
        × (too_few_lines counts lines ≡ false) × (lines * summary_line ≤ length summary.old) }
    ensures { with_summary (popping result head.new staged.new deleted.new) summary.new
        ≡ after_pop (pop_core (edition_of edition) Box parent.now counts
        (lists staged_counts staged.old table_counts table.now deleted_counts deleted.old) head.old)
        counts summary.old }
{
    let popped = pop_core::pop(
        edition,
        Kind::Box,
        parent,
        counts,
        head,
        staged_counts,
        staged,
        table_counts,
        table,
        deleted_counts,
        deleted,
    );
    summary_moves::clear_accepted(summary_moves::is_number(popped), counts.spills, summary);
    popped
}

// A pop of a box number; an empty head takes the newest row first, which vacates its line.
pub fn pop(
    edition: RowEdition,
    parent: &[u8; 32],
    counts: HeadCounts,
    head: &mut [i64],
    staged_counts: ListCounts,
    staged: &mut [u8],
    table_counts: ListCounts,
    table: &[u8],
    deleted_counts: ListCounts,
    deleted: &mut [u8],
    lines: usize,
    summary: &mut [u64],
) -> Popped
    requires { (counts.len ≤ segment_threshold) × PopReady edition (lists staged_counts staged.old table_counts table.now deleted_counts deleted.old) head.old
        × (lines * summary_line ≤ length summary.old) }
    ensures { with_summary (popping result head.new staged.new deleted.new) summary.new
        ≡ pop_lines (edition_of edition) parent.now counts
        (lists staged_counts staged.old table_counts table.now deleted_counts deleted.old) head.old
        lines summary.old }
{
    let len = counts.len;
    if summary_moves::too_few_lines(counts, lines) {
        return Err(refusal::SUMMARY_TOO_SHORT);
    }
    if 0 < len {
        return pop_core::pop(
            edition,
            Kind::Box,
            parent,
            counts,
            head,
            staged_counts,
            staged,
            table_counts,
            table,
            deleted_counts,
            deleted,
        );
    }
    pop_from_empty(
        edition,
        parent,
        counts,
        head,
        staged_counts,
        staged,
        table_counts,
        table,
        deleted_counts,
        deleted,
        lines,
        summary,
    )
}

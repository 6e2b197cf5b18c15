// Which row a spend or an unspend with a summary needs next that is neither staged nor among the records borrowed as the table. The row that a pop with a summary
// or a summary made afresh needs is the one that `missing_rows` names for the pop and for the tally.
#![tactic(auto)]

ghost use Rattle.std.specs.Prelude.{◌≡◌, true, false, ◌*◌, ◌≤◌, ◌<◌, length, take};
ghost use Rattle.index_types.specs.Limits.{summary_line};
ghost use Rattle.entries.specs.Order.{order_ok};
ghost use Rattle.entries.specs.Flip.{position};
ghost use Rattle.segment_id.specs.declared.Kind.TheVariants.{Box};
ghost use Rattle.buffer_core.specs.Edition.{edition_of};
ghost use Rattle.buffer_core.specs.Spills.{sources};
ghost use Rattle.working_set.specs.Reads.{head_reads};
ghost use Rattle.working_summaries.specs.Reads.{in_lines_reads};
ghost use Rattle.row_seeking.specs.Seeking.{among};
ghost use Rattle.row_seeking.specs.Internal.{WorkReady};
ghost use Rattle.missing_with_summary.specs.Missing.{missing_for_flip_with_summary};

use buffer_core::Direction;
use entries::Position;
use index_types::{HeadCounts, ListCounts, RowEdition};

// The first missing row of a spend or an unspend, whose head is in order: none where the head has the entry.
fn seek_flip<'a>(
    edition: RowEdition,
    parent: &[u8; 32],
    head: &'a [i64],
    len: usize,
    staged: &'a [u8],
    staged_count: usize,
    table: &'a [u8],
    table_count: usize,
    summary: &'a [u64],
    target: u64,
    spend: bool,
    spills: usize,
) -> Option<usize>
    requires { WorkReady edition (sources parent.now staged.now staged_count table.now table_count) × (spills < 2147483648)
        × (spills * summary_line ≤ length summary.now) × (len ≤ length head.now) × (order_ok (take len head.now) ≡ true) }
    ensures { result ≡ among (edition_of edition) Box (sources parent.now staged.now staged_count table.now table_count)
        (head_reads (position spend target (take len head.now) 0 false)
        (in_lines_reads (edition_of edition) (sources parent.now staged.now staged_count table.now table_count) summary.now target spend spills)) }
{
    let none = [0u16; 1];
    let position = entry_flips::flip_position(head, len, target, spend);
    match position {
        Position::At(_) => None,
        Position::Seen => line_seeking::seek_lines(
            edition,
            parent,
            staged,
            staged_count,
            table,
            table_count,
            &none[..0],
            summary,
            target,
            spend,
            spills,
        ),
        Position::Absent => line_seeking::seek_lines(
            edition,
            parent,
            staged,
            staged_count,
            table,
            table_count,
            &none[..0],
            summary,
            target,
            spend,
            spills,
        ),
    }
}

// Which row a spend or an unspend with a summary needs next.
pub fn missing_for_flip_with_summary<'a>(
    edition: RowEdition,
    direction: Direction,
    parent: &[u8; 32],
    counts: HeadCounts,
    head: &'a [i64],
    target: i64,
    staged_counts: ListCounts,
    staged: &'a [u8],
    table_counts: ListCounts,
    table: &'a [u8],
    lines: usize,
    summary: &'a [u64],
) -> Option<usize>
    ensures { result ≡ missing_for_flip_with_summary (edition_of edition) direction parent.now counts target staged_counts staged.now table_counts table.now head.now lines summary.now }
{
    let size = signed::magnitude(target);
    let len = counts.len;
    let spills = counts.spills;
    let staged_count = staged_counts.count;
    let table_count = table_counts.count;
    if !summary_checks::flip_ok(
        edition,
        counts,
        staged_counts,
        staged,
        table_counts,
        table,
        head,
        lines,
        summary,
    ) {
        return None;
    }
    if 9223372036854775808 <= size {
        return None;
    }
    if !entry_order::order_ok(head, len) {
        return None;
    }
    if signed::is_negative_i32(spills) {
        return None;
    }
    let rows = signed::usize_from_i32(spills);
    if lines < rows {
        return None;
    }
    seek_flip(
        edition,
        parent,
        head,
        len,
        staged,
        staged_count,
        table,
        table_count,
        summary,
        size,
        buffer_core::is_spend(direction),
        rows,
    )
}

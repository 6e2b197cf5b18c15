// The calls on one parent's boxes with a summary of its spills, a line of five numbers for each: made afresh, kept current by appends, pops, spends and unspends,
// and added up by a tally. Every call that reads or writes rows takes the edition of the spill rows first. Every call tests refusal 25 of what it borrows before
// all else, the summary included; a refusal changes nothing.
#![tactic(auto)]

ghost use Rattle.std.specs.Prelude.{◌≡◌};
ghost use Rattle.buffer_core.specs.declared.Direction.TheVariants.{Spend, Unspend};
ghost use Rattle.buffer_core.specs.Edition.{edition_of};
ghost use Rattle.buffer_core.specs.Append.{appending};
ghost use Rattle.buffer_core.specs.Pop.{popping, lists};
ghost use Rattle.buffer_core.specs.Flip.{flipping};
ghost use Rattle.buffer_checks.specs.Answers.{as_popped_box};
ghost use Rattle.summary_core.specs.Lines.{with_summary};
ghost use Rattle.summary_core.specs.Making.{summary_of};
ghost use Rattle.summary_core.specs.Moves.{append_lines_of, pop_lines_of};
ghost use Rattle.summary_core.specs.Flip.{flip_lines_of};
ghost use Rattle.summary_core.specs.Tally.{tally_lines_of};

use buffer_core::Direction;
use index_types::{
    Appended, BoxNumber, Flipped, HeadCounts, ListCounts, Popped, PoppedBox, RowEdition,
    Summarized, Tallied,
};

// ---- made afresh

// Makes the summary afresh: a line for each box spill, made from its row, and zeros on the lines behind.
pub fn summarize_boxes<'a>(
    edition: RowEdition,
    parent: &[u8; 32],
    counts: HeadCounts,
    head: &[i64],
    staged_counts: ListCounts,
    staged: &'a [u8],
    table_counts: ListCounts,
    table: &'a [u8],
    lines: usize,
    summary: &mut [u64],
) -> Summarized
    ensures { with_summary result summary.new
        ≡ summary_of (edition_of edition) parent.now counts staged_counts staged.now table_counts table.now head.now lines summary.old }
{
    if summary_checks::flip_ok(
        edition,
        counts,
        staged_counts,
        staged,
        table_counts,
        table,
        head,
        lines,
        summary,
    ) {
        return summary_rows::summarize(
            edition,
            parent,
            counts,
            head,
            staged_counts,
            staged,
            table_counts,
            table,
            lines,
            summary,
        );
    }
    Err(refusal::BUFFERS)
}

// ---- append and pop

// A box number goes to the end of the head of boxes; a full head becomes the next row first, and the row gets its line.
pub fn append_box_entry_with_summary(
    edition: RowEdition,
    parent: &[u8; 32],
    counts: HeadCounts,
    head: &mut [i64],
    number: BoxNumber,
    staged_counts: ListCounts,
    staged: &mut [u8],
    lines: usize,
    summary: &mut [u64],
) -> Appended
    ensures { with_summary (appending result head.new staged.new) summary.new
        ≡ append_lines_of (edition_of edition) parent.now counts number.0 staged_counts head.old staged.old lines summary.old }
{
    if summary_checks::append_ok(edition, counts, staged_counts, head, staged, lines, summary) {
        return summary_append::append(
            edition,
            parent,
            counts,
            number.0,
            staged_counts,
            head,
            staged,
            lines,
            summary,
        );
    }
    Err(refusal::BUFFERS)
}

// The last box number of the head; on an empty head the newest row becomes the head first, and its line is cleared.
pub fn pop_box_entry_with_summary(
    edition: RowEdition,
    parent: &[u8; 32],
    counts: HeadCounts,
    head: &mut [i64],
    staged_counts: ListCounts,
    staged: &mut [u8],
    table_counts: ListCounts,
    table: &[u8],
    deleted_counts: ListCounts,
    deleted: &mut [u8],
    lines: usize,
    summary: &mut [u64],
) -> PoppedBox
    ensures { with_summary (popping (as_popped_box result) head.new staged.new deleted.new) summary.new
        ≡ pop_lines_of (edition_of edition) parent.now counts
        (lists staged_counts staged.old table_counts table.now deleted_counts deleted.old) head.old lines summary.old }
{
    let popped = summary_calls::pop_entry(
        edition,
        parent,
        counts,
        head,
        staged_counts,
        staged,
        table_counts,
        table,
        deleted_counts,
        deleted,
        lines,
        summary,
    );
    let (n, after, staged_after, deleted_after) = popped?;
    Ok((BoxNumber(n), after, staged_after, deleted_after))
}

// ---- spend, unspend and tally

// Marks one box as spent: the head's first entry of the number that is not negative is negated; without one, that of the first row that the walk over the summary
// finds it in, and the row's line is made anew.
pub fn flip_box_segment_entry_with_summary(
    edition: RowEdition,
    parent: &[u8; 32],
    counts: HeadCounts,
    head: &mut [i64],
    target: BoxNumber,
    staged_counts: ListCounts,
    staged: &mut [u8],
    table_counts: ListCounts,
    table: &[u8],
    lines: usize,
    summary: &mut [u64],
) -> Flipped
    ensures { with_summary (flipping result head.new staged.new) summary.new
        ≡ flip_lines_of (edition_of edition) Spend parent.now counts target.0 staged_counts staged.old table_counts table.now head.old lines summary.old }
{
    summary_calls::flip_entry(
        edition,
        Direction::Spend,
        parent,
        counts,
        head,
        target.0,
        staged_counts,
        staged,
        table_counts,
        table,
        lines,
        summary,
    )
}

// Takes a spend back.
pub fn unflip_box_segment_entry_with_summary(
    edition: RowEdition,
    parent: &[u8; 32],
    counts: HeadCounts,
    head: &mut [i64],
    target: BoxNumber,
    staged_counts: ListCounts,
    staged: &mut [u8],
    table_counts: ListCounts,
    table: &[u8],
    lines: usize,
    summary: &mut [u64],
) -> Flipped
    ensures { with_summary (flipping result head.new staged.new) summary.new
        ≡ flip_lines_of (edition_of edition) Unspend parent.now counts target.0 staged_counts staged.old table_counts table.now head.old lines summary.old }
{
    summary_calls::flip_entry(
        edition,
        Direction::Unspend,
        parent,
        counts,
        head,
        target.0,
        staged_counts,
        staged,
        table_counts,
        table,
        lines,
        summary,
    )
}

// How many entries of the boxes are unspent, spent and unknown, by the summary and the head. No row is read, so neither the edition nor the parent is asked for.
pub fn tally_with_summary(
    counts: HeadCounts,
    head: &[i64],
    lines: usize,
    summary: &[u64],
) -> Tallied
    ensures { result ≡ tally_lines_of counts head.now lines summary.now }
{
    if summary_checks::tally_ok(counts, head, lines, summary) {
        return summary_tally::tally_lines(counts, head, lines, summary);
    }
    Err(refusal::BUFFERS)
}

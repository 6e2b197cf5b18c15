// An append of a box number with a summary, once refusal 25 has passed: both tests of 36, the append as it is without a summary, then the line of the row that it
// made.
#![tactic(auto)]

ghost use Rattle.std.specs.Prelude.{◌≡◌, false, ◌*◌, ◌≤◌, length};
ghost use Rattle.index_types.specs.Limits.{segment_threshold, summary_line};
ghost use Rattle.segment_id.specs.declared.Kind.TheVariants.{Box};
ghost use Rattle.buffer_core.specs.Edition.{edition_of};
ghost use Rattle.buffer_core.specs.Append.{appending, append_core};
ghost use Rattle.append_core.specs.Internal.{AppendReady};
ghost use Rattle.summary_core.specs.Lines.{with_summary};
ghost use Rattle.summary_core.specs.Moves.{no_free_line, after_append, append_lines};

use index_types::{Appended, HeadCounts, ListCounts, RowEdition, SEGMENT_THRESHOLD};
use segment_id::Kind;

// An append to a head of 512: the line is made of the head before the append, which leaves one number in it.
fn append_to_full(
    edition: RowEdition,
    parent: &[u8; 32],
    counts: HeadCounts,
    number: i64,
    staged_counts: ListCounts,
    head: &mut [i64],
    staged: &mut [u8],
    lines: usize,
    summary: &mut [u64],
) -> Appended
    requires { AppendReady edition counts staged_counts head.old staged.old × (segment_threshold ≤ counts.len) × (no_free_line counts number lines ≡ false)
        × (lines * summary_line ≤ length summary.old) }
    ensures { with_summary (appending result head.new staged.new) summary.new
        ≡ after_append (append_core (edition_of edition) Box parent.now counts number staged_counts head.old staged.old)
        counts head.old summary.old }
{
    let line = summary_lines::line_of(head);
    let appended = append_core::append(
        edition,
        Kind::Box,
        parent,
        counts,
        number,
        staged_counts,
        head,
        staged,
    );
    summary_moves::put_accepted(
        summary_moves::is_done(appended),
        counts.spills,
        line,
        summary,
    );
    appended
}

// An append of a box number; a full head becomes the next row first, and gets its line.
pub fn append(
    edition: RowEdition,
    parent: &[u8; 32],
    counts: HeadCounts,
    number: i64,
    staged_counts: ListCounts,
    head: &mut [i64],
    staged: &mut [u8],
    lines: usize,
    summary: &mut [u64],
) -> Appended
    requires { AppendReady edition counts staged_counts head.old staged.old × (lines * summary_line ≤ length summary.old) }
    ensures { with_summary (appending result head.new staged.new) summary.new
        ≡ append_lines (edition_of edition) parent.now counts number staged_counts head.old staged.old lines summary.old }
{
    let len = counts.len;
    if summary_moves::lines_missing(counts, number, lines) {
        return Err(refusal::SUMMARY_TOO_SHORT);
    }
    if len < SEGMENT_THRESHOLD {
        return append_core::append(
            edition,
            Kind::Box,
            parent,
            counts,
            number,
            staged_counts,
            head,
            staged,
        );
    }
    append_to_full(
        edition,
        parent,
        counts,
        number,
        staged_counts,
        head,
        staged,
        lines,
        summary,
    )
}

// What refusal 25 asks of the buffers that a call with a summary borrows: what it asks without one, and that the summary is not too short for its stated lines.
#![tactic(auto)]

ghost use Rattle.std.specs.Prelude.{◌≡◌, ◌&&◌};
ghost use Rattle.buffer_core.specs.Edition.{edition_of};
ghost use Rattle.buffer_core.specs.Spills.{head_ok};
ghost use Rattle.buffer_core.specs.Append.{append_ok};
ghost use Rattle.buffer_core.specs.Pop.{lists, pop_ok};
ghost use Rattle.buffer_core.specs.Flip.{flip_ok};
ghost use Rattle.summary_core.specs.Lines.{lines_ok};

use index_types::{HeadCounts, ListCounts, RowEdition, SUMMARY_LINE};

// Whether a summary has room for its lines. The quotient is compared, since the product may not fit 64 bits.
pub fn lines_ok(lines: usize, summary: &[u64]) -> bool
    ensures { result ≡ lines_ok lines summary.now }
{
    lines <= summary.len() / SUMMARY_LINE
}

// Refusal 25 of a tally.
pub fn tally_ok(counts: HeadCounts, head: &[i64], lines: usize, summary: &[u64]) -> bool
    ensures { result ≡ (head_ok counts head.now && lines_ok lines summary.now) }
{
    if buffer_core::head_ok(head, counts) {
        return lines_ok(lines, summary);
    }
    false
}

// Refusal 25 of an append.
pub fn append_ok(
    edition: RowEdition,
    counts: HeadCounts,
    staged_counts: ListCounts,
    head: &[i64],
    staged: &[u8],
    lines: usize,
    summary: &[u64],
) -> bool
    ensures { result ≡ (append_ok (edition_of edition) counts staged_counts head.now staged.now && lines_ok lines summary.now) }
{
    if buffer_checks::append_ok(edition, counts, staged_counts, head, staged) {
        return lines_ok(lines, summary);
    }
    false
}

// Refusal 25 of a spend, of an unspend and of making a summary.
pub fn flip_ok(
    edition: RowEdition,
    counts: HeadCounts,
    staged_counts: ListCounts,
    staged: &[u8],
    table_counts: ListCounts,
    table: &[u8],
    head: &[i64],
    lines: usize,
    summary: &[u64],
) -> bool
    ensures { result ≡ (flip_ok (edition_of edition) counts staged_counts staged.now table_counts table.now head.now && lines_ok lines summary.now) }
{
    if buffer_checks::flip_ok(
        edition,
        counts,
        staged_counts,
        staged,
        table_counts,
        table,
        head,
    ) {
        return lines_ok(lines, summary);
    }
    false
}

// Refusal 25 of a pop.
pub fn pop_ok(
    edition: RowEdition,
    counts: HeadCounts,
    head: &[i64],
    staged_counts: ListCounts,
    staged: &[u8],
    table_counts: ListCounts,
    table: &[u8],
    deleted_counts: ListCounts,
    deleted: &[u8],
    lines: usize,
    summary: &[u64],
) -> bool
    ensures { result ≡ (pop_ok (edition_of edition) counts (lists staged_counts staged.now table_counts table.now deleted_counts deleted.now) head.now
        && lines_ok lines summary.now) }
{
    if buffer_checks::pop_ok(
        edition,
        counts,
        head,
        staged_counts,
        staged,
        table_counts,
        table,
        deleted_counts,
        deleted,
    ) {
        return lines_ok(lines, summary);
    }
    false
}

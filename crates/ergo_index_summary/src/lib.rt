// The summary of one parent's box spills made afresh, and the tally by a summary. A summary is a borrowed list of numbers, five to a line, beside the number
// of its lines. Heads and lists of spills are borrowed as for appends and pops.
#![tactic(auto)]

ghost use Rattle.std.specs.Prelude.{◌≡◌};
ghost use Rattle.summary_core.specs.Lines.{with_summary};
ghost use Rattle.ergo_index_lists.specs.Lists.{named_edition};
ghost use Rattle.ergo_index_outs.specs.Outs.{tally_out};
ghost use Rattle.ergo_index_summary.specs.Summary.{summary_call, tally_lines_call};

use index_types::{HeadCounts, ListCounts};

// Makes the summary afresh: a line for each box spill, made from its row, and zeros on the lines behind.
#[unsafe(no_mangle)]
pub extern "C" fn ergo_index_summarize_boxes<'a>(
    second_edition: bool,
    parent: &[u8; 32],
    len: usize,
    spills: i32,
    head: &[i64],
    staged_count: usize,
    staged_capacity: usize,
    staged: &'a [u8],
    table_count: usize,
    table_capacity: usize,
    table: &'a [u8],
    lines: usize,
    summary: &mut [u64],
) -> u8
    ensures { with_summary result summary.new
        ≡ summary_call (named_edition second_edition) parent.now len spills head.now staged_count staged_capacity staged.now table_count table_capacity table.now lines summary.old }
{
    let counts = HeadCounts { len, spills };
    let staged_counts = ListCounts {
        count: staged_count,
        capacity: staged_capacity,
    };
    let table_counts = ListCounts {
        count: table_count,
        capacity: table_capacity,
    };
    let summarized = summary::summarize_boxes(
        ergo_index_lists::named_edition(second_edition),
        parent,
        counts,
        head,
        staged_counts,
        staged,
        table_counts,
        table,
        lines,
        summary,
    );
    match summarized {
        Ok(()) => 0,
        Err(code) => code,
    }
}

// How many entries of the boxes are unspent (above 0), spent (below 0) and unknown (equal to 0), by the summary and the head; no row is read.
#[unsafe(no_mangle)]
pub extern "C" fn ergo_index_tally_with_summary(
    len: usize,
    spills: i32,
    head: &[i64],
    lines: usize,
    summary: &[u64],
    unspent: &mut usize,
    spent: &mut usize,
    unknown: &mut usize,
) -> u8
    ensures { tally_out result unspent.new spent.new unknown.new
        ≡ tally_lines_call len spills head.now lines summary.now unspent.old spent.old unknown.old }
{
    let counts = HeadCounts { len, spills };
    let tallied = summary::tally_with_summary(counts, head, lines, summary);
    ergo_index_outs::tally_told(tallied, unspent, spent, unknown)
}

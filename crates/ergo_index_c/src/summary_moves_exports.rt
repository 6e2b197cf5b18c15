// Box appends and box pops with a summary of the box spills: the line of a row that an append makes is written, that of a row that a pop takes back cleared.
// Heads, lists of spills and the summary are borrowed as for the other exports.
ghost use Rattle.std.specs.Prelude.{◌≡◌};
ghost use Rattle.summary_core.specs.Lines.{with_summary};
ghost use Rattle.ergo_index_lists.specs.Lists.{named_edition};
ghost use Rattle.ergo_index_outs.specs.Outs.{append_out};
ghost use Rattle.ergo_index_outs.specs.Outs.{pop_out};
ghost use Rattle.ergo_index_summary_moves.specs.Moves.{append_lines_call, pop_lines_call};

// A box number goes to the end of the head of boxes; a full head becomes the next staged row first, and the row gets its line.
#[unsafe(no_mangle)]
pub extern "C" fn ergo_index_append_box_entry_with_summary(
    second_edition: bool,
    parent: &[u8; 32],
    len: &mut usize,
    spills: &mut i32,
    head: &mut [i64],
    number: i64,
    staged_count: &mut usize,
    staged_capacity: usize,
    staged: &mut [u8],
    lines: usize,
    summary: &mut [u64],
) -> u8
    ensures { with_summary (append_out result len.new spills.new staged_count.new head.new staged.new) summary.new
        ≡ append_lines_call (named_edition second_edition) parent.now len.old spills.old head.old number staged_count.old staged_capacity staged.old lines summary.old }
{
    ergo_index_summary_moves::ergo_index_append_box_entry_with_summary(
        second_edition,
        parent,
        len,
        spills,
        head,
        number,
        staged_count,
        staged_capacity,
        staged,
        lines,
        summary,
    )
}

// The last box number of the head; on an empty head the newest row becomes the head first, and its line is cleared.
#[unsafe(no_mangle)]
pub extern "C" fn ergo_index_pop_box_entry_with_summary(
    second_edition: bool,
    parent: &[u8; 32],
    len: &mut usize,
    spills: &mut i32,
    head: &mut [i64],
    staged_count: &mut usize,
    staged_capacity: usize,
    staged: &mut [u8],
    table_count: usize,
    table_capacity: usize,
    table: &[u8],
    deleted_count: &mut usize,
    deleted_capacity: usize,
    deleted: &mut [u8],
    lines: usize,
    summary: &mut [u64],
    number: &mut i64,
) -> u8
    ensures { with_summary (pop_out result number.new len.new spills.new staged_count.new deleted_count.new head.new staged.new deleted.new)
        summary.new
        ≡ pop_lines_call (named_edition second_edition) parent.now len.old spills.old head.old staged_count.old staged_capacity staged.old
        table_count table_capacity table.now deleted_count.old deleted_capacity deleted.old lines summary.old number.old }
{
    ergo_index_summary_moves::ergo_index_pop_box_entry_with_summary(
        second_edition,
        parent,
        len,
        spills,
        head,
        staged_count,
        staged_capacity,
        staged,
        table_count,
        table_capacity,
        table,
        deleted_count,
        deleted_capacity,
        deleted,
        lines,
        summary,
        number,
    )
}

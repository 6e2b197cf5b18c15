// Spends and unspends of one box with a summary of the box spills, whose line of the row that is staged is made anew. Heads, lists of spills and the summary
// are borrowed as for the other exports.
ghost use Rattle.std.specs.Prelude.{◌≡◌};
ghost use Rattle.buffer_core.specs.declared.Direction.TheVariants.{Spend, Unspend};
ghost use Rattle.summary_core.specs.Lines.{with_summary};
ghost use Rattle.ergo_index_lists.specs.Lists.{named_edition};
ghost use Rattle.ergo_index_outs.specs.Outs.{flip_out};
ghost use Rattle.ergo_index_summary_flips.specs.Flips.{flip_lines_call};

// Marks one box as spent.
#[unsafe(no_mangle)]
pub extern "C" fn ergo_index_flip_box_segment_entry_with_summary(
    second_edition: bool,
    parent: &[u8; 32],
    len: usize,
    spills: i32,
    head: &mut [i64],
    target: i64,
    staged_count: &mut usize,
    staged_capacity: usize,
    staged: &mut [u8],
    table_count: usize,
    table_capacity: usize,
    table: &[u8],
    lines: usize,
    summary: &mut [u64],
) -> u8
    ensures { with_summary (flip_out result staged_count.new head.new staged.new) summary.new
        ≡ flip_lines_call (named_edition second_edition) Spend parent.now len spills head.old target staged_count.old staged_capacity staged.old table_count table_capacity table.now lines summary.old }
{
    ergo_index_summary_flips::ergo_index_flip_box_segment_entry_with_summary(
        second_edition,
        parent,
        len,
        spills,
        head,
        target,
        staged_count,
        staged_capacity,
        staged,
        table_count,
        table_capacity,
        table,
        lines,
        summary,
    )
}

// Takes a spend back.
#[unsafe(no_mangle)]
pub extern "C" fn ergo_index_unflip_box_segment_entry_with_summary(
    second_edition: bool,
    parent: &[u8; 32],
    len: usize,
    spills: i32,
    head: &mut [i64],
    target: i64,
    staged_count: &mut usize,
    staged_capacity: usize,
    staged: &mut [u8],
    table_count: usize,
    table_capacity: usize,
    table: &[u8],
    lines: usize,
    summary: &mut [u64],
) -> u8
    ensures { with_summary (flip_out result staged_count.new head.new staged.new) summary.new
        ≡ flip_lines_call (named_edition second_edition) Unspend parent.now len spills head.old target staged_count.old staged_capacity staged.old table_count table_capacity table.now lines summary.old }
{
    ergo_index_summary_flips::ergo_index_unflip_box_segment_entry_with_summary(
        second_edition,
        parent,
        len,
        spills,
        head,
        target,
        staged_count,
        staged_capacity,
        staged,
        table_count,
        table_capacity,
        table,
        lines,
        summary,
    )
}

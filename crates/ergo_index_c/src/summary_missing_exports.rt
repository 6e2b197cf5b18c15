// Which row a spend or an unspend with a summary needs next that is neither staged nor in the table that is borrowed, in either edition.
// The result is 12 where a row is missing: its spill number and its key are in the outs. Else it is 0, and the outs are as they were.
ghost use Rattle.std.specs.Prelude.{◌≡◌};
ghost use Rattle.buffer_core.specs.declared.Direction.TheVariants.{Spend, Unspend};
ghost use Rattle.ergo_index_lists.specs.Lists.{named_edition};
ghost use Rattle.missing_outs.specs.Outs.{missing_out};
ghost use Rattle.ergo_index_summary_missing.specs.Missing.{flip_lines_missing};

// The row that a spend needs next.
#[unsafe(no_mangle)]
pub extern "C" fn ergo_index_missing_for_spend_with_summary<'a>(
    second_edition: bool,
    parent: &[u8; 32],
    len: usize,
    spills: i32,
    head: &'a [i64],
    target: i64,
    staged_count: usize,
    staged_capacity: usize,
    staged: &'a [u8],
    table_count: usize,
    table_capacity: usize,
    table: &'a [u8],
    lines: usize,
    summary: &'a [u64],
    number: &mut i32,
    key: &mut [u8; 32],
) -> u8
    ensures { missing_out result number.new key.new
        ≡ flip_lines_missing (named_edition second_edition) Spend parent.now len spills head.now target staged_count staged_capacity staged.now table_count table_capacity table.now lines summary.now number.old key.old }
{
    ergo_index_summary_missing::ergo_index_missing_for_spend_with_summary(
        second_edition,
        parent,
        len,
        spills,
        head,
        target,
        staged_count,
        staged_capacity,
        staged,
        table_count,
        table_capacity,
        table,
        lines,
        summary,
        number,
        key,
    )
}

// The row that an unspend needs next.
#[unsafe(no_mangle)]
pub extern "C" fn ergo_index_missing_for_unspend_with_summary<'a>(
    second_edition: bool,
    parent: &[u8; 32],
    len: usize,
    spills: i32,
    head: &'a [i64],
    target: i64,
    staged_count: usize,
    staged_capacity: usize,
    staged: &'a [u8],
    table_count: usize,
    table_capacity: usize,
    table: &'a [u8],
    lines: usize,
    summary: &'a [u64],
    number: &mut i32,
    key: &mut [u8; 32],
) -> u8
    ensures { missing_out result number.new key.new
        ≡ flip_lines_missing (named_edition second_edition) Unspend parent.now len spills head.now target staged_count staged_capacity staged.now table_count table_capacity table.now lines summary.now number.old key.old }
{
    ergo_index_summary_missing::ergo_index_missing_for_unspend_with_summary(
        second_edition,
        parent,
        len,
        spills,
        head,
        target,
        staged_count,
        staged_capacity,
        staged,
        table_count,
        table_capacity,
        table,
        lines,
        summary,
        number,
        key,
    )
}

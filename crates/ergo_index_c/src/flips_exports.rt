// Spends and unspends of one box, and the tally of one parent's boxes. Heads and lists of spills are borrowed as for appends and pops.
ghost use Rattle.std.specs.Prelude.{◌≡◌};
ghost use Rattle.buffer_core.specs.declared.Direction.TheVariants.{Spend, Unspend};
ghost use Rattle.index_types.specs.declared.RowEdition.TheVariants.{One};
ghost use Rattle.ergo_index_lists.specs.Lists.{named_edition};
ghost use Rattle.ergo_index_outs.specs.Outs.{flip_out, tally_out};
ghost use Rattle.ergo_index_flips.specs.Flips.{flip_call, tally_call};

// Marks one box as spent.
#[unsafe(no_mangle)]
pub extern "C" fn ergo_index_flip_box_segment_entry(
    parent: &[u8; 32],
    len: usize,
    spills: i32,
    head: &mut [i64],
    target: i64,
    staged_count: &mut usize,
    staged_capacity: usize,
    staged: &mut [u8],
    table_count: usize,
    table_capacity: usize,
    table: &[u8],
) -> u8
    ensures { flip_out result staged_count.new head.new staged.new
        ≡ flip_call One Spend parent.now len spills head.old target staged_count.old staged_capacity staged.old table_count table_capacity table.now }
{
    ergo_index_flips::ergo_index_flip_box_segment_entry(
        parent,
        len,
        spills,
        head,
        target,
        staged_count,
        staged_capacity,
        staged,
        table_count,
        table_capacity,
        table,
    )
}

// Takes a spend back.
#[unsafe(no_mangle)]
pub extern "C" fn ergo_index_unflip_box_segment_entry(
    parent: &[u8; 32],
    len: usize,
    spills: i32,
    head: &mut [i64],
    target: i64,
    staged_count: &mut usize,
    staged_capacity: usize,
    staged: &mut [u8],
    table_count: usize,
    table_capacity: usize,
    table: &[u8],
) -> u8
    ensures { flip_out result staged_count.new head.new staged.new
        ≡ flip_call One Unspend parent.now len spills head.old target staged_count.old staged_capacity staged.old table_count table_capacity table.now }
{
    ergo_index_flips::ergo_index_unflip_box_segment_entry(
        parent,
        len,
        spills,
        head,
        target,
        staged_count,
        staged_capacity,
        staged,
        table_count,
        table_capacity,
        table,
    )
}

// How many entries of the boxes are unspent (above 0), spent (below 0) and unknown (equal to 0), over all rows and the head.
#[unsafe(no_mangle)]
pub extern "C" fn ergo_index_tally<'a>(
    parent: &[u8; 32],
    len: usize,
    spills: i32,
    head: &[i64],
    staged_count: usize,
    staged_capacity: usize,
    staged: &'a [u8],
    table_count: usize,
    table_capacity: usize,
    table: &'a [u8],
    unspent: &mut usize,
    spent: &mut usize,
    unknown: &mut usize,
) -> u8
    ensures { tally_out result unspent.new spent.new unknown.new
        ≡ tally_call One parent.now len spills head.now staged_count staged_capacity staged.now table_count table_capacity table.now unspent.old spent.old unknown.old }
{
    ergo_index_flips::ergo_index_tally(
        parent,
        len,
        spills,
        head,
        staged_count,
        staged_capacity,
        staged,
        table_count,
        table_capacity,
        table,
        unspent,
        spent,
        unknown,
    )
}

// A spend.
#[unsafe(no_mangle)]
pub extern "C" fn ergo_index_flip_box_segment_entry_in_edition(
    second_edition: bool,
    parent: &[u8; 32],
    len: usize,
    spills: i32,
    head: &mut [i64],
    target: i64,
    staged_count: &mut usize,
    staged_capacity: usize,
    staged: &mut [u8],
    table_count: usize,
    table_capacity: usize,
    table: &[u8],
) -> u8
    ensures { flip_out result staged_count.new head.new staged.new
        ≡ flip_call (named_edition second_edition) Spend parent.now len spills head.old target staged_count.old staged_capacity staged.old table_count table_capacity table.now }
{
    ergo_index_flips::ergo_index_flip_box_segment_entry_in_edition(
        second_edition,
        parent,
        len,
        spills,
        head,
        target,
        staged_count,
        staged_capacity,
        staged,
        table_count,
        table_capacity,
        table,
    )
}

// An unspend.
#[unsafe(no_mangle)]
pub extern "C" fn ergo_index_unflip_box_segment_entry_in_edition(
    second_edition: bool,
    parent: &[u8; 32],
    len: usize,
    spills: i32,
    head: &mut [i64],
    target: i64,
    staged_count: &mut usize,
    staged_capacity: usize,
    staged: &mut [u8],
    table_count: usize,
    table_capacity: usize,
    table: &[u8],
) -> u8
    ensures { flip_out result staged_count.new head.new staged.new
        ≡ flip_call (named_edition second_edition) Unspend parent.now len spills head.old target staged_count.old staged_capacity staged.old table_count table_capacity table.now }
{
    ergo_index_flips::ergo_index_unflip_box_segment_entry_in_edition(
        second_edition,
        parent,
        len,
        spills,
        head,
        target,
        staged_count,
        staged_capacity,
        staged,
        table_count,
        table_capacity,
        table,
    )
}

// A tally.
#[unsafe(no_mangle)]
pub extern "C" fn ergo_index_tally_in_edition<'a>(
    second_edition: bool,
    parent: &[u8; 32],
    len: usize,
    spills: i32,
    head: &[i64],
    staged_count: usize,
    staged_capacity: usize,
    staged: &'a [u8],
    table_count: usize,
    table_capacity: usize,
    table: &'a [u8],
    unspent: &mut usize,
    spent: &mut usize,
    unknown: &mut usize,
) -> u8
    ensures { tally_out result unspent.new spent.new unknown.new
        ≡ tally_call (named_edition second_edition) parent.now len spills head.now staged_count staged_capacity staged.now table_count table_capacity table.now unspent.old spent.old unknown.old }
{
    ergo_index_flips::ergo_index_tally_in_edition(
        second_edition,
        parent,
        len,
        spills,
        head,
        staged_count,
        staged_capacity,
        staged,
        table_count,
        table_capacity,
        table,
        unspent,
        spent,
        unknown,
    )
}

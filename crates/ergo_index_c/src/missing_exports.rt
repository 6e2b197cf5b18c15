// Which row a call needs next that is neither staged nor in the table that is borrowed, in either edition. Heads and lists of spills are borrowed as for the calls.
// The result is 12 where a row is missing: its spill number and its key are in the outs. Else it is 0, and the outs are as they were.
ghost use Rattle.std.specs.Prelude.{◌≡◌};
ghost use Rattle.buffer_core.specs.declared.Direction.TheVariants.{Spend, Unspend};
ghost use Rattle.segment_id.specs.declared.Kind.TheVariants.{Box, Tx};
ghost use Rattle.ergo_index_lists.specs.Lists.{named_edition};
ghost use Rattle.missing_outs.specs.Outs.{missing_out};
ghost use Rattle.ergo_index_missing.specs.Missing.{flip_missing, pop_missing, tally_missing, page_missing};

// The row that a spend needs next.
#[unsafe(no_mangle)]
pub extern "C" fn ergo_index_missing_for_spend<'a>(
    second_edition: bool,
    parent: &[u8; 32],
    len: usize,
    spills: i32,
    head: &'a [i64],
    target: i64,
    staged_count: usize,
    staged_capacity: usize,
    staged: &'a [u8],
    table_count: usize,
    table_capacity: usize,
    table: &'a [u8],
    number: &mut i32,
    key: &mut [u8; 32],
) -> u8
    ensures { missing_out result number.new key.new
        ≡ flip_missing (named_edition second_edition) Spend parent.now len spills head.now target staged_count staged_capacity staged.now table_count table_capacity table.now number.old key.old }
{
    ergo_index_missing::ergo_index_missing_for_spend(
        second_edition,
        parent,
        len,
        spills,
        head,
        target,
        staged_count,
        staged_capacity,
        staged,
        table_count,
        table_capacity,
        table,
        number,
        key,
    )
}

// The row that an unspend needs next.
#[unsafe(no_mangle)]
pub extern "C" fn ergo_index_missing_for_unspend<'a>(
    second_edition: bool,
    parent: &[u8; 32],
    len: usize,
    spills: i32,
    head: &'a [i64],
    target: i64,
    staged_count: usize,
    staged_capacity: usize,
    staged: &'a [u8],
    table_count: usize,
    table_capacity: usize,
    table: &'a [u8],
    number: &mut i32,
    key: &mut [u8; 32],
) -> u8
    ensures { missing_out result number.new key.new
        ≡ flip_missing (named_edition second_edition) Unspend parent.now len spills head.now target staged_count staged_capacity staged.now table_count table_capacity table.now number.old key.old }
{
    ergo_index_missing::ergo_index_missing_for_unspend(
        second_edition,
        parent,
        len,
        spills,
        head,
        target,
        staged_count,
        staged_capacity,
        staged,
        table_count,
        table_capacity,
        table,
        number,
        key,
    )
}

// The row that a pop of boxes needs next.
#[unsafe(no_mangle)]
pub extern "C" fn ergo_index_missing_for_pop_box<'a>(
    second_edition: bool,
    parent: &[u8; 32],
    len: usize,
    spills: i32,
    head: &'a [i64],
    staged_count: usize,
    staged_capacity: usize,
    staged: &'a [u8],
    table_count: usize,
    table_capacity: usize,
    table: &'a [u8],
    deleted_count: usize,
    deleted_capacity: usize,
    deleted: &'a [u8],
    number: &mut i32,
    key: &mut [u8; 32],
) -> u8
    ensures { missing_out result number.new key.new
        ≡ pop_missing (named_edition second_edition) Box parent.now len spills head.now staged_count staged_capacity staged.now table_count table_capacity table.now
        deleted_count deleted_capacity deleted.now number.old key.old }
{
    ergo_index_missing::ergo_index_missing_for_pop_box(
        second_edition,
        parent,
        len,
        spills,
        head,
        staged_count,
        staged_capacity,
        staged,
        table_count,
        table_capacity,
        table,
        deleted_count,
        deleted_capacity,
        deleted,
        number,
        key,
    )
}

// The row that a pop of transactions needs next.
#[unsafe(no_mangle)]
pub extern "C" fn ergo_index_missing_for_pop_tx<'a>(
    second_edition: bool,
    parent: &[u8; 32],
    len: usize,
    spills: i32,
    head: &'a [i64],
    staged_count: usize,
    staged_capacity: usize,
    staged: &'a [u8],
    table_count: usize,
    table_capacity: usize,
    table: &'a [u8],
    deleted_count: usize,
    deleted_capacity: usize,
    deleted: &'a [u8],
    number: &mut i32,
    key: &mut [u8; 32],
) -> u8
    ensures { missing_out result number.new key.new
        ≡ pop_missing (named_edition second_edition) Tx parent.now len spills head.now staged_count staged_capacity staged.now table_count table_capacity table.now
        deleted_count deleted_capacity deleted.now number.old key.old }
{
    ergo_index_missing::ergo_index_missing_for_pop_tx(
        second_edition,
        parent,
        len,
        spills,
        head,
        staged_count,
        staged_capacity,
        staged,
        table_count,
        table_capacity,
        table,
        deleted_count,
        deleted_capacity,
        deleted,
        number,
        key,
    )
}

// The row that a tally needs next.
#[unsafe(no_mangle)]
pub extern "C" fn ergo_index_missing_for_tally<'a>(
    second_edition: bool,
    parent: &[u8; 32],
    len: usize,
    spills: i32,
    head: &'a [i64],
    staged_count: usize,
    staged_capacity: usize,
    staged: &'a [u8],
    table_count: usize,
    table_capacity: usize,
    table: &'a [u8],
    number: &mut i32,
    key: &mut [u8; 32],
) -> u8
    ensures { missing_out result number.new key.new
        ≡ tally_missing (named_edition second_edition) parent.now len spills head.now staged_count staged_capacity staged.now table_count table_capacity table.now number.old key.old }
{
    ergo_index_missing::ergo_index_missing_for_tally(
        second_edition,
        parent,
        len,
        spills,
        head,
        staged_count,
        staged_capacity,
        staged,
        table_count,
        table_capacity,
        table,
        number,
        key,
    )
}

// The row that a page of so many numbers, put into that list, needs next.
#[unsafe(no_mangle)]
pub extern "C" fn ergo_index_missing_for_page<'a>(
    second_edition: bool,
    parent: &[u8; 32],
    len: usize,
    spills: i32,
    head: &'a [i64],
    staged_count: usize,
    staged_capacity: usize,
    staged: &'a [u8],
    table_count: usize,
    table_capacity: usize,
    table: &'a [u8],
    length: usize,
    page: &'a [i64],
    number: &mut i32,
    key: &mut [u8; 32],
) -> u8
    ensures { missing_out result number.new key.new
        ≡ page_missing (named_edition second_edition) parent.now len spills head.now staged_count staged_capacity staged.now table_count table_capacity table.now length page.now number.old key.old }
{
    ergo_index_missing::ergo_index_missing_for_page(
        second_edition,
        parent,
        len,
        spills,
        head,
        staged_count,
        staged_capacity,
        staged,
        table_count,
        table_capacity,
        table,
        length,
        page,
        number,
        key,
    )
}

// Pops from one parent's heads. A head is a borrowed list of 512 numbers beside its length and spill count; each list of spills is borrowed bytes
// beside a count and a capacity. Counts that a call changes are borrowed too.
ghost use Rattle.std.specs.Prelude.{◌≡◌};
ghost use Rattle.index_types.specs.declared.RowEdition.TheVariants.{One};
ghost use Rattle.segment_id.specs.declared.Kind.TheVariants.{Box, Tx};
ghost use Rattle.ergo_index_lists.specs.Lists.{named_edition};
ghost use Rattle.ergo_index_outs.specs.Outs.{pop_out};
ghost use Rattle.ergo_index_pop.specs.Pop.{pop_call};

// The last box number of the head; on an empty head the newest row becomes the head first.
#[unsafe(no_mangle)]
pub extern "C" fn ergo_index_pop_box_entry(
    parent: &[u8; 32],
    len: &mut usize,
    spills: &mut i32,
    head: &mut [i64],
    staged_count: &mut usize,
    staged_capacity: usize,
    staged: &mut [u8],
    table_count: usize,
    table_capacity: usize,
    table: &[u8],
    deleted_count: &mut usize,
    deleted_capacity: usize,
    deleted: &mut [u8],
    number: &mut i64,
) -> u8
    ensures { pop_out result number.new len.new spills.new staged_count.new deleted_count.new head.new staged.new deleted.new
        ≡ pop_call One Box parent.now len.old spills.old head.old staged_count.old staged_capacity staged.old table_count table_capacity table.now
        deleted_count.old deleted_capacity deleted.old number.old }
{
    ergo_index_pop::ergo_index_pop_box_entry(
        parent,
        len,
        spills,
        head,
        staged_count,
        staged_capacity,
        staged,
        table_count,
        table_capacity,
        table,
        deleted_count,
        deleted_capacity,
        deleted,
        number,
    )
}

// The same for transactions.
#[unsafe(no_mangle)]
pub extern "C" fn ergo_index_pop_tx_entry(
    parent: &[u8; 32],
    len: &mut usize,
    spills: &mut i32,
    head: &mut [i64],
    staged_count: &mut usize,
    staged_capacity: usize,
    staged: &mut [u8],
    table_count: usize,
    table_capacity: usize,
    table: &[u8],
    deleted_count: &mut usize,
    deleted_capacity: usize,
    deleted: &mut [u8],
    number: &mut i64,
) -> u8
    ensures { pop_out result number.new len.new spills.new staged_count.new deleted_count.new head.new staged.new deleted.new
        ≡ pop_call One Tx parent.now len.old spills.old head.old staged_count.old staged_capacity staged.old table_count table_capacity table.now
        deleted_count.old deleted_capacity deleted.old number.old }
{
    ergo_index_pop::ergo_index_pop_tx_entry(
        parent,
        len,
        spills,
        head,
        staged_count,
        staged_capacity,
        staged,
        table_count,
        table_capacity,
        table,
        deleted_count,
        deleted_capacity,
        deleted,
        number,
    )
}

// The last box number.
#[unsafe(no_mangle)]
pub extern "C" fn ergo_index_pop_box_entry_in_edition(
    second_edition: bool,
    parent: &[u8; 32],
    len: &mut usize,
    spills: &mut i32,
    head: &mut [i64],
    staged_count: &mut usize,
    staged_capacity: usize,
    staged: &mut [u8],
    table_count: usize,
    table_capacity: usize,
    table: &[u8],
    deleted_count: &mut usize,
    deleted_capacity: usize,
    deleted: &mut [u8],
    number: &mut i64,
) -> u8
    ensures { pop_out result number.new len.new spills.new staged_count.new deleted_count.new head.new staged.new deleted.new
        ≡ pop_call (named_edition second_edition) Box parent.now len.old spills.old head.old staged_count.old staged_capacity staged.old table_count table_capacity table.now
        deleted_count.old deleted_capacity deleted.old number.old }
{
    ergo_index_pop::ergo_index_pop_box_entry_in_edition(
        second_edition,
        parent,
        len,
        spills,
        head,
        staged_count,
        staged_capacity,
        staged,
        table_count,
        table_capacity,
        table,
        deleted_count,
        deleted_capacity,
        deleted,
        number,
    )
}

// The last transaction number.
#[unsafe(no_mangle)]
pub extern "C" fn ergo_index_pop_tx_entry_in_edition(
    second_edition: bool,
    parent: &[u8; 32],
    len: &mut usize,
    spills: &mut i32,
    head: &mut [i64],
    staged_count: &mut usize,
    staged_capacity: usize,
    staged: &mut [u8],
    table_count: usize,
    table_capacity: usize,
    table: &[u8],
    deleted_count: &mut usize,
    deleted_capacity: usize,
    deleted: &mut [u8],
    number: &mut i64,
) -> u8
    ensures { pop_out result number.new len.new spills.new staged_count.new deleted_count.new head.new staged.new deleted.new
        ≡ pop_call (named_edition second_edition) Tx parent.now len.old spills.old head.old staged_count.old staged_capacity staged.old table_count table_capacity table.now
        deleted_count.old deleted_capacity deleted.old number.old }
{
    ergo_index_pop::ergo_index_pop_tx_entry_in_edition(
        second_edition,
        parent,
        len,
        spills,
        head,
        staged_count,
        staged_capacity,
        staged,
        table_count,
        table_capacity,
        table,
        deleted_count,
        deleted_capacity,
        deleted,
        number,
    )
}

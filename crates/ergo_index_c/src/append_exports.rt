// Appends to one parent's heads. A head is a borrowed list of 512 numbers beside its length and spill count; each list of spills is borrowed bytes
// beside a count and a capacity. Counts that a call changes are borrowed too.
ghost use Rattle.std.specs.Prelude.{◌≡◌};
ghost use Rattle.index_types.specs.declared.RowEdition.TheVariants.{One};
ghost use Rattle.segment_id.specs.declared.Kind.TheVariants.{Box, Tx};
ghost use Rattle.ergo_index_lists.specs.Lists.{named_edition};
ghost use Rattle.ergo_index_outs.specs.Outs.{append_out};
ghost use Rattle.ergo_index_append.specs.Append.{append_call};

// A box number goes to the end of the head of boxes; a full head becomes the next staged row first.
#[unsafe(no_mangle)]
pub extern "C" fn ergo_index_append_box_entry(
    parent: &[u8; 32],
    len: &mut usize,
    spills: &mut i32,
    head: &mut [i64],
    number: i64,
    staged_count: &mut usize,
    staged_capacity: usize,
    staged: &mut [u8],
) -> u8
    ensures { append_out result len.new spills.new staged_count.new head.new staged.new
        ≡ append_call One Box parent.now len.old spills.old head.old number staged_count.old staged_capacity staged.old }
{
    ergo_index_append::ergo_index_append_box_entry(
        parent,
        len,
        spills,
        head,
        number,
        staged_count,
        staged_capacity,
        staged,
    )
}

// The same for transactions.
#[unsafe(no_mangle)]
pub extern "C" fn ergo_index_append_tx_entry(
    parent: &[u8; 32],
    len: &mut usize,
    spills: &mut i32,
    head: &mut [i64],
    number: i64,
    staged_count: &mut usize,
    staged_capacity: usize,
    staged: &mut [u8],
) -> u8
    ensures { append_out result len.new spills.new staged_count.new head.new staged.new
        ≡ append_call One Tx parent.now len.old spills.old head.old number staged_count.old staged_capacity staged.old }
{
    ergo_index_append::ergo_index_append_tx_entry(
        parent,
        len,
        spills,
        head,
        number,
        staged_count,
        staged_capacity,
        staged,
    )
}

// A box number.
#[unsafe(no_mangle)]
pub extern "C" fn ergo_index_append_box_entry_in_edition(
    second_edition: bool,
    parent: &[u8; 32],
    len: &mut usize,
    spills: &mut i32,
    head: &mut [i64],
    number: i64,
    staged_count: &mut usize,
    staged_capacity: usize,
    staged: &mut [u8],
) -> u8
    ensures { append_out result len.new spills.new staged_count.new head.new staged.new
        ≡ append_call (named_edition second_edition) Box parent.now len.old spills.old head.old number staged_count.old staged_capacity staged.old }
{
    ergo_index_append::ergo_index_append_box_entry_in_edition(
        second_edition,
        parent,
        len,
        spills,
        head,
        number,
        staged_count,
        staged_capacity,
        staged,
    )
}

// A transaction number.
#[unsafe(no_mangle)]
pub extern "C" fn ergo_index_append_tx_entry_in_edition(
    second_edition: bool,
    parent: &[u8; 32],
    len: &mut usize,
    spills: &mut i32,
    head: &mut [i64],
    number: i64,
    staged_count: &mut usize,
    staged_capacity: usize,
    staged: &mut [u8],
) -> u8
    ensures { append_out result len.new spills.new staged_count.new head.new staged.new
        ≡ append_call (named_edition second_edition) Tx parent.now len.old spills.old head.old number staged_count.old staged_capacity staged.old }
{
    ergo_index_append::ergo_index_append_tx_entry_in_edition(
        second_edition,
        parent,
        len,
        spills,
        head,
        number,
        staged_count,
        staged_capacity,
        staged,
    )
}

// The flush. Lists of spills are borrowed as for appends and pops.
ghost use Rattle.std.specs.Prelude.{◌≡◌};
ghost use Rattle.index_types.specs.declared.RowEdition.TheVariants.{One};
ghost use Rattle.ergo_index_lists.specs.Lists.{named_edition};
ghost use Rattle.ergo_index_outs.specs.Outs.{flush_out};
ghost use Rattle.ergo_index_flush.specs.Flush.{flush_call};

// Writes the staged rows whose key is not deleted to the table, then removes the deleted keys from it; staged and deleted spills end empty.
#[unsafe(no_mangle)]
pub extern "C" fn ergo_index_flush_staged_spills(
    staged_count: &mut usize,
    staged_capacity: usize,
    staged: &mut [u8],
    table_count: &mut usize,
    table_capacity: usize,
    table: &mut [u8],
    deleted_count: &mut usize,
    deleted_capacity: usize,
    deleted: &mut [u8],
) -> u8
    ensures { flush_out result staged_count.new table_count.new deleted_count.new staged.new table.new deleted.new
        ≡ flush_call One staged_count.old staged_capacity staged.old table_count.old table_capacity table.old deleted_count.old deleted_capacity deleted.old }
{
    ergo_index_flush::ergo_index_flush_staged_spills(
        staged_count,
        staged_capacity,
        staged,
        table_count,
        table_capacity,
        table,
        deleted_count,
        deleted_capacity,
        deleted,
    )
}

// A flush, with rows of the edition that the flag names.
#[unsafe(no_mangle)]
pub extern "C" fn ergo_index_flush_staged_spills_in_edition(
    second_edition: bool,
    staged_count: &mut usize,
    staged_capacity: usize,
    staged: &mut [u8],
    table_count: &mut usize,
    table_capacity: usize,
    table: &mut [u8],
    deleted_count: &mut usize,
    deleted_capacity: usize,
    deleted: &mut [u8],
) -> u8
    ensures { flush_out result staged_count.new table_count.new deleted_count.new staged.new table.new deleted.new
        ≡ flush_call (named_edition second_edition) staged_count.old staged_capacity staged.old table_count.old table_capacity table.old deleted_count.old deleted_capacity deleted.old }
{
    ergo_index_flush::ergo_index_flush_staged_spills_in_edition(
        second_edition,
        staged_count,
        staged_capacity,
        staged,
        table_count,
        table_capacity,
        table,
        deleted_count,
        deleted_capacity,
        deleted,
    )
}

// Spill rows among the staged spills and in the segments table.
ghost use Rattle.std.specs.Prelude.{◌≡◌, length};
ghost use Rattle.index_types.specs.declared.RowEdition.TheVariants.{One};
ghost use Rattle.ergo_index_lists.specs.Lists.{named_edition};
ghost use Rattle.ergo_index_inspection.specs.Inspection.{locate_out, locate_call, inspect_out, inspect_call};

// Which list holds the row under a key, and the index of its record there.
#[unsafe(no_mangle)]
pub extern "C" fn ergo_index_locate_spill(
    staged_count: usize,
    staged_capacity: usize,
    staged: &[u8],
    table_count: usize,
    table_capacity: usize,
    table: &[u8],
    key: &[u8; 32],
    list: &mut u8,
    index: &mut usize,
) -> u8
    ensures { locate_out result list.new index.new
        ≡ locate_call One staged_count staged_capacity staged.now table_count table_capacity table.now key.now list.old index.old }
{
    ergo_index_inspection::ergo_index_locate_spill(
        staged_count,
        staged_capacity,
        staged,
        table_count,
        table_capacity,
        table,
        key,
        list,
        index,
    )
}

// Which list holds the row under a key, and where the row begins and how long it is; 12 where the key is in neither list.
#[unsafe(no_mangle)]
pub extern "C" fn ergo_index_inspect_spill<'a>(
    staged_count: usize,
    staged_capacity: usize,
    staged: &'a [u8],
    table_count: usize,
    table_capacity: usize,
    table: &'a [u8],
    key: &[u8; 32],
    list: &mut u8,
    offset: &mut usize,
    length: &mut usize,
) -> u8
    ensures { inspect_out result list.new offset.new length.new
        ≡ inspect_call One staged_count staged_capacity staged.now table_count table_capacity table.now key.now list.old offset.old length.old }
{
    ergo_index_inspection::ergo_index_inspect_spill(
        staged_count,
        staged_capacity,
        staged,
        table_count,
        table_capacity,
        table,
        key,
        list,
        offset,
        length,
    )
}

// A row located, in a list of the edition that the flag names.
#[unsafe(no_mangle)]
pub extern "C" fn ergo_index_locate_spill_in_edition(
    second_edition: bool,
    staged_count: usize,
    staged_capacity: usize,
    staged: &[u8],
    table_count: usize,
    table_capacity: usize,
    table: &[u8],
    key: &[u8; 32],
    list: &mut u8,
    index: &mut usize,
) -> u8
    ensures { locate_out result list.new index.new
        ≡ locate_call (named_edition second_edition) staged_count staged_capacity staged.now table_count table_capacity table.now key.now list.old index.old }
{
    ergo_index_inspection::ergo_index_locate_spill_in_edition(
        second_edition,
        staged_count,
        staged_capacity,
        staged,
        table_count,
        table_capacity,
        table,
        key,
        list,
        index,
    )
}

// A row inspected, in a list of the edition that the flag names.
#[unsafe(no_mangle)]
pub extern "C" fn ergo_index_inspect_spill_in_edition<'a>(
    second_edition: bool,
    staged_count: usize,
    staged_capacity: usize,
    staged: &'a [u8],
    table_count: usize,
    table_capacity: usize,
    table: &'a [u8],
    key: &[u8; 32],
    list: &mut u8,
    offset: &mut usize,
    length: &mut usize,
) -> u8
    ensures { inspect_out result list.new offset.new length.new
        ≡ inspect_call (named_edition second_edition) staged_count staged_capacity staged.now table_count table_capacity table.now key.now list.old offset.old length.old }
{
    ergo_index_inspection::ergo_index_inspect_spill_in_edition(
        second_edition,
        staged_count,
        staged_capacity,
        staged,
        table_count,
        table_capacity,
        table,
        key,
        list,
        offset,
        length,
    )
}

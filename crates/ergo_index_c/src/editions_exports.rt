// Rows turned from one edition into the other. How many bytes were written goes to the out.
ghost use Rattle.std.specs.Prelude.{◌≡◌};
ghost use Rattle.index_types.specs.declared.RowEdition.TheVariants.{One, Two};
ghost use Rattle.row_converters.specs.Convert.{convert};
ghost use Rattle.ergo_index_numbers.specs.Numbers.{write_out, write_export};

// A row of the first edition, with its parent, kind (1 box, 2 transaction) and spill number, goes to the front of the output as one of the second.
#[unsafe(no_mangle)]
pub extern "C" fn ergo_index_row_to_second(
    row: &[u8],
    parent: &[u8; 32],
    kind: u8,
    number: i32,
    out: &mut [u8],
    written: &mut usize,
) -> u8
    ensures { write_out result written.new out.new
        ≡ write_export written.old (convert One Two parent.now kind number row.now out.old) }
{
    ergo_index_editions::ergo_index_row_to_second(row, parent, kind, number, out, written)
}

// A row of the second edition, which says the three that are given, goes back.
#[unsafe(no_mangle)]
pub extern "C" fn ergo_index_row_to_first(
    row: &[u8],
    parent: &[u8; 32],
    kind: u8,
    number: i32,
    out: &mut [u8],
    written: &mut usize,
) -> u8
    ensures { write_out result written.new out.new
        ≡ write_export written.old (convert Two One parent.now kind number row.now out.old) }
{
    ergo_index_editions::ergo_index_row_to_first(row, parent, kind, number, out, written)
}

// Pages of one parent's unspent boxes. Heads and lists of spills are borrowed as for a tally.
#![tactic(auto)]

ghost use Rattle.std.specs.Prelude.{◌≡◌};
ghost use Rattle.index_types.specs.declared.RowEdition.TheVariants.{One};
ghost use Rattle.ergo_index_lists.specs.Lists.{named_edition};
ghost use Rattle.ergo_index_pages.specs.Pages.{page_out, page_call};

use index_types::{HeadCounts, ListCounts};

// The unspent box numbers of head and rows, newest first: those from the offset on, as many as the length asks, then zeros to 64. How many stand in the page
// goes to the out.
#[unsafe(no_mangle)]
pub extern "C" fn ergo_index_unspent_page<'a>(
    parent: &[u8; 32],
    len: usize,
    spills: i32,
    head: &[i64],
    staged_count: usize,
    staged_capacity: usize,
    staged: &'a [u8],
    table_count: usize,
    table_capacity: usize,
    table: &'a [u8],
    offset: usize,
    length: usize,
    page: &mut [i64],
    numbers: &mut usize,
) -> u8
    ensures { page_out result numbers.new page.new
        ≡ page_call One parent.now len spills head.now staged_count staged_capacity staged.now table_count table_capacity table.now offset length numbers.old page.old }
{
    ergo_index_unspent_page_in_edition(
        false,
        parent,
        len,
        spills,
        head,
        staged_count,
        staged_capacity,
        staged,
        table_count,
        table_capacity,
        table,
        offset,
        length,
        page,
        numbers,
    )
}

// A page, with rows of the edition that the flag names.
#[unsafe(no_mangle)]
pub extern "C" fn ergo_index_unspent_page_in_edition<'a>(
    second_edition: bool,
    parent: &[u8; 32],
    len: usize,
    spills: i32,
    head: &[i64],
    staged_count: usize,
    staged_capacity: usize,
    staged: &'a [u8],
    table_count: usize,
    table_capacity: usize,
    table: &'a [u8],
    offset: usize,
    length: usize,
    page: &mut [i64],
    numbers: &mut usize,
) -> u8
    ensures { page_out result numbers.new page.new
        ≡ page_call (named_edition second_edition) parent.now len spills head.now staged_count staged_capacity staged.now table_count table_capacity table.now offset length numbers.old page.old }
{
    let counts = HeadCounts { len, spills };
    let staged_counts = ListCounts {
        count: staged_count,
        capacity: staged_capacity,
    };
    let table_counts = ListCounts {
        count: table_count,
        capacity: table_capacity,
    };
    let paged = segment_buffer::unspent_page(
        ergo_index_lists::named_edition(second_edition),
        parent,
        counts,
        head,
        offset,
        length,
        staged_counts,
        staged,
        table_counts,
        table,
        page,
    );
    match paged {
        Ok(count) => {
            *numbers = count;
            0
        }
        Err(code) => code,
    }
}

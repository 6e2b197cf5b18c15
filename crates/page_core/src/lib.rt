// A page of unspent boxes, once refusal 25 has passed. Every row is checked first, from spill 0 up; then the page is filled, the head first and the rows from
// the newest down, and copied out.
#![tactic(auto)]

ghost use Rattle.std.specs.Prelude.{◌≡◌, true, ◌*◌, ◌≤◌, ◌<◌, ◌++◌, length, take, Ok};
ghost use Rattle.records.specs.Records.{keys};
ghost use Rattle.records.specs.Find.{distinct};
ghost use Rattle.entries.specs.Unspent.{unspent_newest_first, stretch, page_places};
ghost use Rattle.buffer_core.specs.Edition.{edition_of, record_size};
ghost use Rattle.buffer_core.specs.Spills.{sources};
ghost use Rattle.buffer_core.specs.Rows.{rows_up};
ghost use Rattle.buffer_core.specs.Flip.{row_checked};
ghost use Rattle.buffer_core.specs.Page.{paging, put_page, page_over};
ghost use Rattle.page_entries.specs.Internal.{Ready, Filled};
ghost use Rattle.page_core.specs.Internal.{numbers_in, rows_flat};

use index_types::{Paged, RowEdition, SEGMENT_THRESHOLD};
use page_entries::Filling;
use record_hints::{FEW_RECORDS, HINTS};

// Puts the row of a spill number into a page. A refused row puts nothing; none is met, since all are checked before.
fn put_row<'a>(
    edition: RowEdition,
    parent: &[u8; 32],
    number: usize,
    staged: &'a [u8],
    staged_count: usize,
    table: &'a [u8],
    table_count: usize,
    hints: &[u16],
    wanted: usize,
    filling: Filling,
    page: &mut [i64; entries::PAGE],
) -> Filling
    requires { (staged_count * record_size edition ≤ length staged.now) × (table_count * record_size edition ≤ length table.now) × (number < 2147483648)
        × (distinct (keys (record_size edition) table_count table.now) ≡ true) × Ready wanted filling page.old }
    ensures { Filled wanted (unspent_newest_first (numbers_in (row_checked (edition_of edition) (sources parent.now staged.now staged_count table.now table_count) number)))
        filling page.old result page.new }
{
    let mut row = [0i64; SEGMENT_THRESHOLD];
    let read = spill_rows::read_checked(
        edition,
        parent,
        number,
        staged,
        staged_count,
        table,
        table_count,
        hints,
        &mut row,
    );
    match read {
        Ok(()) => page_entries::put_newest(&row, SEGMENT_THRESHOLD, wanted, filling, page),
        Err(_) => filling,
    }
}

// Puts the rows into a page, from the newest down, until it is full.
fn put_rows<'a>(
    edition: RowEdition,
    parent: &[u8; 32],
    spills: usize,
    staged: &'a [u8],
    staged_count: usize,
    table: &'a [u8],
    table_count: usize,
    hints: &[u16],
    wanted: usize,
    filling: Filling,
    page: &mut [i64; entries::PAGE],
) -> Filling
    requires { (staged_count * record_size edition ≤ length staged.now) × (table_count * record_size edition ≤ length table.now) × (spills < 2147483648)
        × (distinct (keys (record_size edition) table_count table.now) ≡ true) × Ready wanted filling page.old }
    ensures { Filled wanted (unspent_newest_first (rows_flat (row_checked (edition_of edition) (sources parent.now staged.now staged_count table.now table_count)) 0 spills))
        filling page.old result page.new }
{
    let mut filled = filling;
    for n in (0..spills).rev() {
        if wanted <= filled.put {
            return filled;
        }
        filled = put_row(
            edition,
            parent,
            n,
            staged,
            staged_count,
            table,
            table_count,
            hints,
            wanted,
            filled,
            page,
        );
    }
    filled
}

// Fills a page from the head and the rows and copies it out. The answer is how many numbers stand in it.
fn put_page<'a>(
    edition: RowEdition,
    parent: &[u8; 32],
    spills: usize,
    head: &[i64],
    len: usize,
    staged: &'a [u8],
    staged_count: usize,
    table: &'a [u8],
    table_count: usize,
    hints: &[u16],
    offset: usize,
    wanted: usize,
    out: &mut [i64],
) -> usize
    requires { (staged_count * record_size edition ≤ length staged.now) × (table_count * record_size edition ≤ length table.now) × (spills < 2147483648)
        × (distinct (keys (record_size edition) table_count table.now) ≡ true) × (len ≤ length head.now) × (wanted ≤ page_places) × (page_places ≤ length out.old) }
    ensures { paging (Ok result) out.new
        ≡ put_page (stretch offset wanted (unspent_newest_first
        (rows_flat (row_checked (edition_of edition) (sources parent.now staged.now staged_count table.now table_count)) 0 spills ++ take len head.now)))
        out.old }
{
    let mut page = [0i64; entries::PAGE];
    let start = Filling {
        skip: offset,
        put: 0,
    };
    let of_head = page_entries::put_newest(head, len, wanted, start, &mut page);
    let filled = put_rows(
        edition,
        parent,
        spills,
        staged,
        staged_count,
        table,
        table_count,
        hints,
        wanted,
        of_head,
        &mut page,
    );
    stores::copy_numbers(out, 0, &page);
    filled.put
}

// The rows are checked, then the page is filled.
fn page_hinted<'a>(
    edition: RowEdition,
    parent: &[u8; 32],
    spills: usize,
    head: &[i64],
    len: usize,
    staged: &'a [u8],
    staged_count: usize,
    table: &'a [u8],
    table_count: usize,
    hints: &[u16],
    offset: usize,
    wanted: usize,
    out: &mut [i64],
) -> Paged
    requires { (staged_count * record_size edition ≤ length staged.now) × (table_count * record_size edition ≤ length table.now) × (spills < 2147483648)
        × (distinct (keys (record_size edition) table_count table.now) ≡ true) × (len ≤ length head.now) × (wanted ≤ page_places) × (page_places ≤ length out.old) }
    ensures { paging result out.new
        ≡ page_over (rows_up (row_checked (edition_of edition) (sources parent.now staged.now staged_count table.now table_count)) 0 spills)
        (take len head.now) offset wanted out.old }
{
    let read = row_tallies::check_rows(
        edition,
        parent,
        spills,
        staged,
        staged_count,
        table,
        table_count,
        hints,
    );
    match read {
        Ok(()) => {
            let count = put_page(
                edition,
                parent,
                spills,
                head,
                len,
                staged,
                staged_count,
                table,
                table_count,
                hints,
                offset,
                wanted,
                out,
            );
            Ok(count)
        }
        Err(code) => Err(code),
    }
}

// The page over the rows and the first numbers of the head, or the code of the first row that is refused.
pub fn page_rows<'a>(
    edition: RowEdition,
    parent: &[u8; 32],
    spills: usize,
    head: &[i64],
    len: usize,
    staged: &'a [u8],
    staged_count: usize,
    table: &'a [u8],
    table_count: usize,
    offset: usize,
    wanted: usize,
    out: &mut [i64],
) -> Paged
    requires { (staged_count * record_size edition ≤ length staged.now) × (table_count * record_size edition ≤ length table.now) × (spills < 2147483648)
        × (distinct (keys (record_size edition) table_count table.now) ≡ true) × (len ≤ length head.now) × (wanted ≤ page_places) × (page_places ≤ length out.old) }
    ensures { paging result out.new
        ≡ page_over (rows_up (row_checked (edition_of edition) (sources parent.now staged.now staged_count table.now table_count)) 0 spills)
        (take len head.now) offset wanted out.old }
{
    if table_count <= FEW_RECORDS {
        let none = [0u16; 1];
        return page_hinted(
            edition,
            parent,
            spills,
            head,
            len,
            staged,
            staged_count,
            table,
            table_count,
            &none[..0],
            offset,
            wanted,
            out,
        );
    }
    let mut hints = [0u16; HINTS];
    let size = buffer_core::record_size(edition);
    record_hints::note_places(table, size, table_count, &mut hints);
    page_hinted(
        edition,
        parent,
        spills,
        head,
        len,
        staged,
        staged_count,
        table,
        table_count,
        &hints,
        offset,
        wanted,
        out,
    )
}

// Pages of unspent boxes, for any buffers.
#![tactic(auto)]

ghost use Rattle.std.specs.Prelude.{◌≡◌, ◌≤◌, length, take};
ghost use Rattle.entries.specs.Unspent.{page_places};
ghost use Rattle.buffer_core.specs.Edition.{edition_of};
ghost use Rattle.buffer_core.specs.Spills.{sources};
ghost use Rattle.buffer_core.specs.Page.{paging, page_core, page_of};
ghost use Rattle.flip_core.specs.Internal.{FlipReady};

use index_types::{HeadCounts, ListCounts, Paged, RowEdition};

// 33, 10, 11, then the rows.
fn page_checked<'a>(
    edition: RowEdition,
    parent: &[u8; 32],
    counts: HeadCounts,
    head: &[i64],
    offset: usize,
    wanted: usize,
    staged_counts: ListCounts,
    staged: &'a [u8],
    table_counts: ListCounts,
    table: &'a [u8],
    page: &mut [i64],
) -> Paged
    requires { FlipReady edition counts staged_counts staged.now table_counts table.now head.now × (page_places ≤ length page.old) }
    ensures { paging result page.new
        ≡ page_core (edition_of edition) (sources parent.now staged.now staged_counts.count table.now table_counts.count)
        counts.spills (take counts.len head.now) offset wanted page.old }
{
    let len = counts.len;
    let spills = counts.spills;
    let ordered = entry_order::order_ok(head, len);
    if entries::PAGE < wanted {
        return Err(refusal::PAGE_TOO_LONG);
    }
    if !ordered {
        return Err(refusal::HEAD_OUT_OF_ORDER);
    }
    if signed::is_negative_i32(spills) {
        return Err(refusal::NEGATIVE_SPILL_COUNT);
    }
    page_core::page_rows(
        edition,
        parent,
        signed::usize_from_i32(spills),
        head,
        len,
        staged,
        staged_counts.count,
        table,
        table_counts.count,
        offset,
        wanted,
        page,
    )
}

// The unspent box numbers of head and rows, newest first: those from the offset on, as many as the length asks, then zeros to 64.
pub fn unspent_page<'a>(
    edition: RowEdition,
    parent: &[u8; 32],
    counts: HeadCounts,
    head: &[i64],
    offset: usize,
    length: usize,
    staged_counts: ListCounts,
    staged: &'a [u8],
    table_counts: ListCounts,
    table: &'a [u8],
    page: &mut [i64],
) -> Paged
    ensures { paging result page.new
        ≡ page_of (edition_of edition) parent.now counts staged_counts staged.now table_counts table.now head.now offset length page.old }
{
    if page.len() < entries::PAGE {
        return Err(refusal::BUFFERS);
    }
    if buffer_checks::flip_ok(
        edition,
        counts,
        staged_counts,
        staged,
        table_counts,
        table,
        head,
    ) {
        return page_checked(
            edition,
            parent,
            counts,
            head,
            offset,
            length,
            staged_counts,
            staged,
            table_counts,
            table,
            page,
        );
    }
    Err(refusal::BUFFERS)
}

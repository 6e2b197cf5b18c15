// Which row a call reads next that is neither staged nor among the records borrowed as the table: a driver fetches it and asks again.
#![tactic(auto)]

ghost use Rattle.std.specs.Prelude.{◌≡◌, true, false, ◌≤◌, ◌<◌, length, take};
ghost use Rattle.entries.specs.Order.{order_ok};
ghost use Rattle.entries.specs.Flip.{position};
ghost use Rattle.segment_id.specs.declared.Kind.TheVariants.{Box};
ghost use Rattle.buffer_core.specs.Edition.{edition_of};
ghost use Rattle.buffer_core.specs.Spills.{sources};
ghost use Rattle.flip_core.specs.Internal.{FlipReady};
ghost use Rattle.working_set.specs.Reads.{head_reads, rows_reads, tally_core_reads};
ghost use Rattle.row_seeking.specs.Seeking.{among};
ghost use Rattle.missing_rows.specs.Missing.{missing_for_flip, missing_for_pop, missing_for_tally, missing_for_page};
ghost use Rattle.row_seeking.specs.Internal.{WorkReady};

use buffer_core::Direction;
use entries::Position;
use index_types::{HeadCounts, ListCounts, RowEdition};
use segment_id::Kind;

// The first missing row of a spend or an unspend, whose head is in order: none where the head has the entry.
fn seek_flip<'a>(
    edition: RowEdition,
    parent: &[u8; 32],
    head: &'a [i64],
    len: usize,
    staged: &'a [u8],
    staged_count: usize,
    table: &'a [u8],
    table_count: usize,
    target: u64,
    spend: bool,
    spills: usize,
) -> Option<usize>
    requires { WorkReady edition (sources parent.now staged.now staged_count table.now table_count) × (spills < 2147483648) × (target < 9223372036854775808)
        × (len ≤ length head.now) × (order_ok (take len head.now) ≡ true) }
    ensures { result ≡ among (edition_of edition) Box (sources parent.now staged.now staged_count table.now table_count)
        (head_reads (position spend target (take len head.now) 0 false)
        (rows_reads (edition_of edition) (sources parent.now staged.now staged_count table.now table_count) target spend spills)) }
{
    let none = [0u16; 1];
    let position = entry_flips::flip_position(head, len, target, spend);
    match position {
        Position::At(_) => None,
        Position::Seen => row_seeking::seek_rows(
            edition,
            parent,
            staged,
            staged_count,
            table,
            table_count,
            &none[..0],
            target,
            spend,
            spills,
        ),
        Position::Absent => row_seeking::seek_rows(
            edition,
            parent,
            staged,
            staged_count,
            table,
            table_count,
            &none[..0],
            target,
            spend,
            spills,
        ),
    }
}

// Which row a spend or an unspend needs next.
pub fn missing_for_flip<'a>(
    edition: RowEdition,
    direction: Direction,
    parent: &[u8; 32],
    counts: HeadCounts,
    head: &'a [i64],
    target: i64,
    staged_counts: ListCounts,
    staged: &'a [u8],
    table_counts: ListCounts,
    table: &'a [u8],
) -> Option<usize>
    ensures { result ≡ missing_for_flip (edition_of edition) direction parent.now counts target staged_counts staged.now table_counts table.now head.now }
{
    let size = signed::magnitude(target);
    let len = counts.len;
    let spills = counts.spills;
    let staged_count = staged_counts.count;
    let table_count = table_counts.count;
    if !buffer_checks::flip_ok(
        edition,
        counts,
        staged_counts,
        staged,
        table_counts,
        table,
        head,
    ) {
        return None;
    }
    if 9223372036854775808 <= size {
        return None;
    }
    if !entry_order::order_ok(head, len) {
        return None;
    }
    if signed::is_negative_i32(spills) {
        return None;
    }
    seek_flip(
        edition,
        parent,
        head,
        len,
        staged,
        staged_count,
        table,
        table_count,
        size,
        buffer_core::is_spend(direction),
        signed::usize_from_i32(spills),
    )
}

// Which row a pop needs next: that of the newest spill, where the head is empty.
pub fn missing_for_pop<'a>(
    edition: RowEdition,
    kind: Kind,
    parent: &[u8; 32],
    counts: HeadCounts,
    head: &'a [i64],
    staged_counts: ListCounts,
    staged: &'a [u8],
    table_counts: ListCounts,
    table: &'a [u8],
    deleted_counts: ListCounts,
    deleted: &'a [u8],
) -> Option<usize>
    ensures { result ≡ missing_for_pop (edition_of edition) kind parent.now counts staged_counts staged.now table_counts table.now deleted_counts deleted.now head.now }
{
    let none = [0u16; 1];
    let spills = counts.spills;
    if !buffer_checks::pop_ok(
        edition,
        counts,
        head,
        staged_counts,
        staged,
        table_counts,
        table,
        deleted_counts,
        deleted,
    ) {
        return None;
    }
    if signed::is_negative_i32(spills) {
        return None;
    }
    if 0 < counts.len {
        return None;
    }
    let rows = signed::usize_from_i32(spills);
    if rows == 0 {
        return None;
    }
    row_seeking::ask(
        edition,
        kind,
        parent,
        rows - 1,
        staged,
        staged_counts.count,
        table,
        table_counts.count,
        &none[..0],
    )
}

// Which row a tally needs next, once 25 is tested.
fn seek_tally<'a>(
    edition: RowEdition,
    parent: &[u8; 32],
    counts: HeadCounts,
    head: &'a [i64],
    staged_counts: ListCounts,
    staged: &'a [u8],
    table_counts: ListCounts,
    table: &'a [u8],
) -> Option<usize>
    requires { FlipReady edition counts staged_counts staged.now table_counts table.now head.now }
    ensures { result ≡ among (edition_of edition) Box (sources parent.now staged.now staged_counts.count table.now table_counts.count)
        (tally_core_reads (edition_of edition) (sources parent.now staged.now staged_counts.count table.now table_counts.count) counts.spills (take counts.len head.now)) }
{
    let none = [0u16; 1];
    let spills = counts.spills;
    if !entry_order::order_ok(head, counts.len) {
        return None;
    }
    if signed::is_negative_i32(spills) {
        return None;
    }
    row_seeking::seek_up(
        edition,
        parent,
        signed::usize_from_i32(spills),
        staged,
        staged_counts.count,
        table,
        table_counts.count,
        &none[..0],
    )
}

// Which row a tally needs next.
pub fn missing_for_tally<'a>(
    edition: RowEdition,
    parent: &[u8; 32],
    counts: HeadCounts,
    head: &'a [i64],
    staged_counts: ListCounts,
    staged: &'a [u8],
    table_counts: ListCounts,
    table: &'a [u8],
) -> Option<usize>
    ensures { result ≡ missing_for_tally (edition_of edition) parent.now counts staged_counts staged.now table_counts table.now head.now }
{
    if !buffer_checks::flip_ok(
        edition,
        counts,
        staged_counts,
        staged,
        table_counts,
        table,
        head,
    ) {
        return None;
    }
    seek_tally(
        edition,
        parent,
        counts,
        head,
        staged_counts,
        staged,
        table_counts,
        table,
    )
}

// Which row a page of so many numbers needs next.
pub fn missing_for_page<'a>(
    edition: RowEdition,
    parent: &[u8; 32],
    counts: HeadCounts,
    head: &'a [i64],
    numbers: usize,
    out: &'a [i64],
    staged_counts: ListCounts,
    staged: &'a [u8],
    table_counts: ListCounts,
    table: &'a [u8],
) -> Option<usize>
    ensures { result ≡ missing_for_page (edition_of edition) parent.now counts staged_counts staged.now table_counts table.now head.now numbers out.now }
{
    if !buffer_checks::flip_ok(
        edition,
        counts,
        staged_counts,
        staged,
        table_counts,
        table,
        head,
    ) {
        return None;
    }
    if out.len() < entries::PAGE {
        return None;
    }
    if entries::PAGE < numbers {
        return None;
    }
    seek_tally(
        edition,
        parent,
        counts,
        head,
        staged_counts,
        staged,
        table_counts,
        table,
    )
}

// The entries of one kind of an address, spills and head as one list: every row checked as a pop checks it, and two such lists compared entry by entry
// with one row of each decoded at a time.
#![tactic(auto)]

ghost use Rattle.std.specs.Prelude.{◌≡◌, List, ℤ, length, take};
ghost use Rattle.index_types.specs.Limits.{segment_threshold};
ghost use Rattle.buffer_core.specs.Edition.{edition_of};
ghost use Rattle.buffer_core.specs.Spills.{sources};
ghost use Rattle.buffer_core.specs.Rows.{rows_up};
ghost use Rattle.spill_rows.specs.Internal.{read_of};
ghost use Rattle.address_order.specs.Order.{of_signed, of_lists};
ghost use Rattle.side_order.specs.Side.{row_taken, side_of};
ghost use Rattle.side_order.specs.Internal.{TakenInto, RowsReady, SideReady, Standing, Filled, TakenSide, side_entries};

use index_types::{Order, RowEdition, SEGMENT_THRESHOLD};
use row_edition::SpillRead;
use segment_id::Kind;
use spill_rows::Read;

// Where a comparison stands in a side: the number of the next row, the place in the row in hand, and how many numbers that row has. The head is the row
// behind the last.
#[derive(Clone, Copy)]
pub struct Cursor {
    pub next: usize,
    pub at: usize,
    pub end: usize,
}

// Reads the row of a spill number as a pop does: one without a number of the kind is refused.
fn read_taken<'a>(
    edition: RowEdition,
    kind: Kind,
    parent: &[u8; 32],
    number: usize,
    staged: &'a [u8],
    staged_count: usize,
    table: &'a [u8],
    table_count: usize,
    hints: &[u16],
    out: &mut [i64],
) -> SpillRead
    requires { RowsReady edition (sources parent.now staged.now staged_count table.now table_count) number × (length out.old ≡ segment_threshold) }
    ensures { TakenInto (row_taken (edition_of edition) kind (sources parent.now staged.now staged_count table.now table_count) number)
        result out.new }
{
    let key = spill_rows::spill_key(kind, parent, number);
    let read = spill_rows::read_under(
        edition,
        kind,
        parent,
        number,
        &key,
        staged,
        staged_count,
        table,
        table_count,
        hints,
        out,
    );
    let n = read?;
    if n == 0 {
        return Err(refusal::ROW_WITHOUT_NUMBERS);
    }
    Ok(n)
}

// Whether a pop would take the row of a spill number.
fn check_row<'a>(
    edition: RowEdition,
    kind: Kind,
    parent: &[u8; 32],
    number: usize,
    staged: &'a [u8],
    staged_count: usize,
    table: &'a [u8],
    table_count: usize,
    hints: &[u16],
) -> Read
    requires { RowsReady edition (sources parent.now staged.now staged_count table.now table_count) number }
    ensures { result ≡ read_of (row_taken (edition_of edition) kind (sources parent.now staged.now staged_count table.now table_count) number) }
{
    let mut row = [0i64; SEGMENT_THRESHOLD];
    let read = read_taken(
        edition,
        kind,
        parent,
        number,
        staged,
        staged_count,
        table,
        table_count,
        hints,
        &mut row,
    );
    read?;
    Ok(())
}

// Whether a pop would take every row, from spill 0 up.
fn check_rows<'a>(
    edition: RowEdition,
    kind: Kind,
    parent: &[u8; 32],
    spills: usize,
    staged: &'a [u8],
    staged_count: usize,
    table: &'a [u8],
    table_count: usize,
    hints: &[u16],
) -> Read
    requires { RowsReady edition (sources parent.now staged.now staged_count table.now table_count) spills }
    ensures { result ≡ read_of (rows_up (row_taken (edition_of edition) kind (sources parent.now staged.now staged_count table.now table_count)) 0 spills) }
{
    for n in 0..spills {
        let row = check_row(
            edition,
            kind,
            parent,
            n,
            staged,
            staged_count,
            table,
            table_count,
            hints,
        );
        match row {
            Ok(()) => {}
            Err(code) => {
                return Err(code);
            }
        }
    }
    Ok(())
}

// Steps to the next row, or to the head behind the last, where the row in hand is used up.
fn fill<'a>(
    edition: RowEdition,
    kind: Kind,
    parent: &[u8; 32],
    spills: usize,
    head: &[i64],
    len: usize,
    staged: &'a [u8],
    staged_count: usize,
    table: &'a [u8],
    table_count: usize,
    hints: &[u16],
    cursor: Cursor,
    row: &mut [i64],
) -> Cursor
    requires { SideReady edition (sources parent.now staged.now staged_count table.now table_count) spills head.now len
        × Standing edition kind (sources parent.now staged.now staged_count table.now table_count) spills cursor row.old }
    ensures { Filled edition kind (sources parent.now staged.now staged_count table.now table_count) spills (take len head.now)
        cursor row.old result row.new }
{
    let next = cursor.next;
    if cursor.at < cursor.end {
        return cursor;
    }
    if next < spills {
        let read = read_taken(
            edition,
            kind,
            parent,
            next,
            staged,
            staged_count,
            table,
            table_count,
            hints,
            row,
        );
        return match read {
            Ok(n) => Cursor {
                next: next + 1,
                at: 0,
                end: n,
            },
            Err(_) => Cursor {
                next: next + 1,
                at: 0,
                end: 0,
            },
        };
    }
    if next == spills {
        stores::copy_numbers(row, 0, &head[..len]);
        return Cursor {
            next: next + 1,
            at: 0,
            end: len,
        };
    }
    cursor
}

// Whether a pop would refuse a side: its spill count is negative, or one of its rows is refused.
pub fn check_side<'a>(
    edition: RowEdition,
    kind: Kind,
    parent: &[u8; 32],
    spills: i32,
    staged: &'a [u8],
    staged_count: usize,
    table: &'a [u8],
    table_count: usize,
    hints: &[u16],
) -> Read
    requires { RowsReady edition (sources parent.now staged.now staged_count table.now table_count) 0 }
    ensures { (head : List ℤ) → result ≡ read_of (side_of (edition_of edition) kind (sources parent.now staged.now staged_count table.now table_count) spills head) }
{
    if signed::is_negative_i32(spills) {
        return Err(refusal::NEGATIVE_SPILL_COUNT);
    }
    check_rows(
        edition,
        kind,
        parent,
        signed::usize_from_i32(spills),
        staged,
        staged_count,
        table,
        table_count,
        hints,
    )
}

// How the entries of two sides compare, entry by entry: spills from 0 up, then the head.
pub fn compare_sides<'a>(
    kind: Kind,
    edition: RowEdition,
    parent: &[u8; 32],
    spills: usize,
    head: &[i64],
    len: usize,
    staged: &'a [u8],
    staged_count: usize,
    table: &'a [u8],
    table_count: usize,
    hints: &[u16],
    other_edition: RowEdition,
    other_parent: &[u8; 32],
    other_spills: usize,
    other_head: &[i64],
    other_len: usize,
    other_staged: &'a [u8],
    other_staged_count: usize,
    other_table: &'a [u8],
    other_table_count: usize,
    other_hints: &[u16],
) -> Order
    requires { TakenSide edition kind (sources parent.now staged.now staged_count table.now table_count) spills head.now len
        × TakenSide other_edition kind (sources other_parent.now other_staged.now other_staged_count other_table.now other_table_count) other_spills other_head.now other_len }
    ensures { result ≡ of_lists of_signed
        (side_entries edition kind (sources parent.now staged.now staged_count table.now table_count) spills (take len head.now))
        (side_entries other_edition kind (sources other_parent.now other_staged.now other_staged_count other_table.now other_table_count) other_spills
        (take other_len other_head.now)) }
{
    let mut row = [0i64; SEGMENT_THRESHOLD];
    let mut other_row = [0i64; SEGMENT_THRESHOLD];
    let mut c = Cursor {
        next: 0,
        at: 0,
        end: 0,
    };
    let mut d = Cursor {
        next: 0,
        at: 0,
        end: 0,
    };
    loop {
        c = fill(
            edition,
            kind,
            parent,
            spills,
            head,
            len,
            staged,
            staged_count,
            table,
            table_count,
            hints,
            c,
            &mut row,
        );
        d = fill(
            other_edition,
            kind,
            other_parent,
            other_spills,
            other_head,
            other_len,
            other_staged,
            other_staged_count,
            other_table,
            other_table_count,
            other_hints,
            d,
            &mut other_row,
        );
        let next = c.next;
        let i = c.at;
        let end = c.end;
        let other_next = d.next;
        let j = d.at;
        let other_end = d.end;
        if end <= i {
            if other_end <= j {
                return Order::Equal;
            }
            return Order::Less;
        }
        if other_end <= j {
            return Order::Greater;
        }
        let x = row[i];
        let y = other_row[j];
        let order = token_order::compare_signed(x, y);
        match order {
            Order::Less => {
                return Order::Less;
            }
            Order::Greater => {
                return Order::Greater;
            }
            Order::Equal => {
                c = Cursor {
                    next: next,
                    at: i + 1,
                    end: end,
                };
                d = Cursor {
                    next: other_next,
                    at: j + 1,
                    end: other_end,
                };
            }
        }
    }
}

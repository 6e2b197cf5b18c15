// Which row a spend or an unspend with a summary needs next that is neither staged nor in the table that is borrowed, in either edition.
// The result is 12 where a row is missing: its spill number and its key are in the outs. Else it is 0, and the outs are as they were.
#![tactic(auto)]

ghost use Rattle.std.specs.Prelude.{◌≡◌};
ghost use Rattle.buffer_core.specs.declared.Direction.TheVariants.{Spend, Unspend};
ghost use Rattle.ergo_index_lists.specs.Lists.{named_edition};
ghost use Rattle.missing_outs.specs.Outs.{missing_out};
ghost use Rattle.ergo_index_summary_missing.specs.Missing.{flip_lines_missing};

use buffer_core::Direction;
use index_types::{HeadCounts, ListCounts, RowEdition};
use segment_id::Kind;

// Of a spend or an unspend.
fn flip<'a>(
    edition: RowEdition,
    direction: Direction,
    parent: &[u8; 32],
    len: usize,
    spills: i32,
    head: &'a [i64],
    target: i64,
    staged_count: usize,
    staged_capacity: usize,
    staged: &'a [u8],
    table_count: usize,
    table_capacity: usize,
    table: &'a [u8],
    lines: usize,
    summary: &'a [u64],
    number: &mut i32,
    key: &mut [u8; 32],
) -> u8
    ensures { missing_out result number.new key.new
        ≡ flip_lines_missing edition direction parent.now len spills head.now target staged_count staged_capacity staged.now table_count table_capacity table.now lines summary.now number.old key.old }
{
    let counts = HeadCounts { len, spills };
    let staged_counts = ListCounts {
        count: staged_count,
        capacity: staged_capacity,
    };
    let table_counts = ListCounts {
        count: table_count,
        capacity: table_capacity,
    };
    let missing = missing_with_summary::missing_for_flip_with_summary(
        edition,
        direction,
        parent,
        counts,
        head,
        target,
        staged_counts,
        staged,
        table_counts,
        table,
        lines,
        summary,
    );
    missing_outs::told(Kind::Box, parent, missing, number, key)
}

// The row that a spend needs next.
#[unsafe(no_mangle)]
pub extern "C" fn ergo_index_missing_for_spend_with_summary<'a>(
    second_edition: bool,
    parent: &[u8; 32],
    len: usize,
    spills: i32,
    head: &'a [i64],
    target: i64,
    staged_count: usize,
    staged_capacity: usize,
    staged: &'a [u8],
    table_count: usize,
    table_capacity: usize,
    table: &'a [u8],
    lines: usize,
    summary: &'a [u64],
    number: &mut i32,
    key: &mut [u8; 32],
) -> u8
    ensures { missing_out result number.new key.new
        ≡ flip_lines_missing (named_edition second_edition) Spend parent.now len spills head.now target staged_count staged_capacity staged.now table_count table_capacity table.now lines summary.now number.old key.old }
{
    flip(
        ergo_index_lists::named_edition(second_edition),
        Direction::Spend,
        parent,
        len,
        spills,
        head,
        target,
        staged_count,
        staged_capacity,
        staged,
        table_count,
        table_capacity,
        table,
        lines,
        summary,
        number,
        key,
    )
}

// The row that an unspend needs next.
#[unsafe(no_mangle)]
pub extern "C" fn ergo_index_missing_for_unspend_with_summary<'a>(
    second_edition: bool,
    parent: &[u8; 32],
    len: usize,
    spills: i32,
    head: &'a [i64],
    target: i64,
    staged_count: usize,
    staged_capacity: usize,
    staged: &'a [u8],
    table_count: usize,
    table_capacity: usize,
    table: &'a [u8],
    lines: usize,
    summary: &'a [u64],
    number: &mut i32,
    key: &mut [u8; 32],
) -> u8
    ensures { missing_out result number.new key.new
        ≡ flip_lines_missing (named_edition second_edition) Unspend parent.now len spills head.now target staged_count staged_capacity staged.now table_count table_capacity table.now lines summary.now number.old key.old }
{
    flip(
        ergo_index_lists::named_edition(second_edition),
        Direction::Unspend,
        parent,
        len,
        spills,
        head,
        target,
        staged_count,
        staged_capacity,
        staged,
        table_count,
        table_capacity,
        table,
        lines,
        summary,
        number,
        key,
    )
}

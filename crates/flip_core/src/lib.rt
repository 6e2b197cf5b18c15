// Spend and unspend, once refusal 25 is tested: one core with the direction as a parameter. The hints say where the table's records may stand (`record_hints`).
#![tactic(auto)]

ghost use Rattle.std.specs.Prelude.{◌≡◌, true, ◌≤◌, ◌<◌, length, take};
ghost use Rattle.entries.specs.Order.{order_ok};
ghost use Rattle.buffer_core.specs.Edition.{edition_of};
ghost use Rattle.buffer_core.specs.Spills.{sources};
ghost use Rattle.buffer_core.specs.Flip.{flipping, done_by, in_order, flip_core};
ghost use Rattle.flip_stage.specs.Internal.{RowsReady};
ghost use Rattle.flip_core.specs.Internal.{FlipReady};

use buffer_core::Direction;
pub use buffer_core::is_spend;
use entries::Position;
use index_types::{Flipped, HeadCounts, ListCounts, RowEdition};

// The head first, which is in order, then the rows.
fn flip_in_order(
    edition: RowEdition,
    parent: &[u8; 32],
    target: u64,
    spend: bool,
    len: usize,
    spills: usize,
    staged_counts: ListCounts,
    staged: &mut [u8],
    table_count: usize,
    table: &[u8],
    hints: &[u16],
    head: &mut [i64],
) -> Flipped
    requires { RowsReady edition staged_counts staged.old table_count table.now × (spills < 2147483648) × (target < 9223372036854775808) × (len ≤ length head.old)
        × (order_ok (take len head.old) ≡ true) }
    ensures { flipping result head.new staged.new
        ≡ done_by (edition_of edition) (in_order (edition_of edition) (sources parent.now staged.old staged_counts.count table.now table_count) staged_counts.capacity target spend spills (take len head.old)) staged_counts head.old staged.old }
{
    let position = entry_flips::flip_position(head, len, target, spend);
    match position {
        Position::At(i) => {
            entry_flips::flip_at(head, i);
            Ok(staged_counts)
        }
        Position::Seen => flip_rows::flip_rows(
            edition,
            parent,
            target,
            spend,
            spills,
            true,
            staged_counts,
            staged,
            table_count,
            table,
            hints,
        ),
        Position::Absent => flip_rows::flip_rows(
            edition,
            parent,
            target,
            spend,
            spills,
            false,
            staged_counts,
            staged,
            table_count,
            table,
            hints,
        ),
    }
}

// A spend or an unspend: 9, 10, 11, then the head and the rows.
pub fn flip(
    edition: RowEdition,
    direction: Direction,
    parent: &[u8; 32],
    counts: HeadCounts,
    target: i64,
    staged_counts: ListCounts,
    staged: &mut [u8],
    table_counts: ListCounts,
    table: &[u8],
    hints: &[u16],
    head: &mut [i64],
) -> Flipped
    requires { FlipReady edition counts staged_counts staged.old table_counts table.now head.old }
    ensures { flipping result head.new staged.new
        ≡ flip_core (edition_of edition) direction parent.now counts target staged_counts staged.old table_counts table.now head.old }
{
    let size = signed::magnitude(target);
    let len = counts.len;
    let spills = counts.spills;
    let table_count = table_counts.count;
    if 9223372036854775808 <= size {
        return Err(refusal::TARGET_IS_MINIMUM);
    }
    if !entry_order::order_ok(head, len) {
        return Err(refusal::HEAD_OUT_OF_ORDER);
    }
    if signed::is_negative_i32(spills) {
        return Err(refusal::NEGATIVE_SPILL_COUNT);
    }
    flip_in_order(
        edition,
        parent,
        size,
        buffer_core::is_spend(direction),
        len,
        signed::usize_from_i32(spills),
        staged_counts,
        staged,
        table_count,
        table,
        hints,
        head,
    )
}

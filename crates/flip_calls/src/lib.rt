// Spend, unspend and tally, for any buffers.
#![tactic(auto)]

ghost use Rattle.std.specs.Prelude.{◌≡◌};
ghost use Rattle.buffer_core.specs.declared.Direction.TheVariants.{Spend, Unspend};
ghost use Rattle.buffer_core.specs.Edition.{edition_of};
ghost use Rattle.buffer_core.specs.Flip.{flipping, flip_of};
ghost use Rattle.buffer_core.specs.Tally.{tally_of};

use buffer_core::Direction;
use index_types::{BoxNumber, Flipped, HeadCounts, ListCounts, RowEdition, Tallied};

// A spend or an unspend. It brings no hints: where the records of the table stand is noted in the call, if it goes to the rows of a table of more than 128.
pub fn flip_entry(
    edition: RowEdition,
    direction: Direction,
    parent: &[u8; 32],
    counts: HeadCounts,
    head: &mut [i64],
    target: i64,
    staged_counts: ListCounts,
    staged: &mut [u8],
    table_counts: ListCounts,
    table: &[u8],
) -> Flipped
    ensures { flipping result head.new staged.new
        ≡ flip_of (edition_of edition) direction parent.now counts target staged_counts staged.old table_counts table.now head.old }
{
    let none = [0u16; 1];
    if buffer_checks::flip_ok(
        edition,
        counts,
        staged_counts,
        staged,
        table_counts,
        table,
        head,
    ) {
        return flip_core::flip(
            edition,
            direction,
            parent,
            counts,
            target,
            staged_counts,
            staged,
            table_counts,
            table,
            &none[..0],
            head,
        );
    }
    Err(refusal::BUFFERS)
}

// Marks one box as spent: the head's first entry of the number that is not negative is negated; without one, that of the first row that the walk finds it in.
pub fn flip_box_segment_entry(
    edition: RowEdition,
    parent: &[u8; 32],
    counts: HeadCounts,
    head: &mut [i64],
    target: BoxNumber,
    staged_counts: ListCounts,
    staged: &mut [u8],
    table_counts: ListCounts,
    table: &[u8],
) -> Flipped
    ensures { flipping result head.new staged.new
        ≡ flip_of (edition_of edition) Spend parent.now counts target.0 staged_counts staged.old table_counts table.now head.old }
{
    flip_entry(
        edition,
        Direction::Spend,
        parent,
        counts,
        head,
        target.0,
        staged_counts,
        staged,
        table_counts,
        table,
    )
}

// Takes a spend back.
pub fn unflip_box_segment_entry(
    edition: RowEdition,
    parent: &[u8; 32],
    counts: HeadCounts,
    head: &mut [i64],
    target: BoxNumber,
    staged_counts: ListCounts,
    staged: &mut [u8],
    table_counts: ListCounts,
    table: &[u8],
) -> Flipped
    ensures { flipping result head.new staged.new
        ≡ flip_of (edition_of edition) Unspend parent.now counts target.0 staged_counts staged.old table_counts table.now head.old }
{
    flip_entry(
        edition,
        Direction::Unspend,
        parent,
        counts,
        head,
        target.0,
        staged_counts,
        staged,
        table_counts,
        table,
    )
}

// How many entries of the boxes are unspent and how many spent, over all rows and the head.
pub fn tally<'a>(
    edition: RowEdition,
    parent: &[u8; 32],
    counts: HeadCounts,
    head: &[i64],
    staged_counts: ListCounts,
    staged: &'a [u8],
    table_counts: ListCounts,
    table: &'a [u8],
) -> Tallied
    ensures { result ≡ tally_of (edition_of edition) parent.now counts staged_counts staged.now table_counts table.now head.now }
{
    if buffer_checks::flip_ok(
        edition,
        counts,
        staged_counts,
        staged,
        table_counts,
        table,
        head,
    ) {
        return tally_core::tally(
            edition,
            parent,
            counts,
            staged_counts,
            staged,
            table_counts,
            table,
            head,
        );
    }
    Err(refusal::BUFFERS)
}

// Append of a box number or a transaction number, for any buffers.
#![tactic(auto)]

ghost use Rattle.std.specs.Prelude.{◌≡◌};
ghost use Rattle.segment_id.specs.declared.Kind.TheVariants.{Box, Tx};
ghost use Rattle.buffer_core.specs.Edition.{edition_of};
ghost use Rattle.buffer_core.specs.Append.{appending, append_of};

use index_types::{Appended, BoxNumber, HeadCounts, ListCounts, RowEdition, TxNumber};
use segment_id::Kind;

// An append of either kind.
pub fn append_entry(
    edition: RowEdition,
    kind: Kind,
    parent: &[u8; 32],
    counts: HeadCounts,
    head: &mut [i64],
    number: i64,
    staged_counts: ListCounts,
    staged: &mut [u8],
) -> Appended
    ensures { appending result head.new staged.new
        ≡ append_of (edition_of edition) kind parent.now counts number staged_counts head.old staged.old }
{
    if buffer_checks::append_ok(edition, counts, staged_counts, head, staged) {
        return append_core::append(
            edition,
            kind,
            parent,
            counts,
            number,
            staged_counts,
            head,
            staged,
        );
    }
    Err(refusal::BUFFERS)
}

// A box number goes to the end of the head of boxes; a full head becomes the next row first.
pub fn append_box_entry(
    edition: RowEdition,
    parent: &[u8; 32],
    counts: HeadCounts,
    head: &mut [i64],
    number: BoxNumber,
    staged_counts: ListCounts,
    staged: &mut [u8],
) -> Appended
    ensures { appending result head.new staged.new
        ≡ append_of (edition_of edition) Box parent.now counts number.0 staged_counts head.old staged.old }
{
    append_entry(
        edition,
        Kind::Box,
        parent,
        counts,
        head,
        number.0,
        staged_counts,
        staged,
    )
}

// The same for transactions.
pub fn append_tx_entry(
    edition: RowEdition,
    parent: &[u8; 32],
    counts: HeadCounts,
    head: &mut [i64],
    number: TxNumber,
    staged_counts: ListCounts,
    staged: &mut [u8],
) -> Appended
    ensures { appending result head.new staged.new
        ≡ append_of (edition_of edition) Tx parent.now counts number.0 staged_counts head.old staged.old }
{
    append_entry(
        edition,
        Kind::Tx,
        parent,
        counts,
        head,
        number.0,
        staged_counts,
        staged,
    )
}

// Pop of a box number or a transaction number, for any buffers.
#![tactic(auto)]

ghost use Rattle.std.specs.Prelude.{◌≡◌};
ghost use Rattle.segment_id.specs.declared.Kind.TheVariants.{Box, Tx};
ghost use Rattle.buffer_core.specs.Edition.{edition_of};
ghost use Rattle.buffer_core.specs.Pop.{popping, lists, pop_of};
ghost use Rattle.buffer_checks.specs.Answers.{as_popped_box, as_popped_tx};

use index_types::{
    BoxNumber, HeadCounts, ListCounts, Popped, PoppedBox, PoppedTx, RowEdition, TxNumber,
};
use segment_id::Kind;

// A pop of either kind.
pub fn pop_entry(
    edition: RowEdition,
    kind: Kind,
    parent: &[u8; 32],
    counts: HeadCounts,
    head: &mut [i64],
    staged_counts: ListCounts,
    staged: &mut [u8],
    table_counts: ListCounts,
    table: &[u8],
    deleted_counts: ListCounts,
    deleted: &mut [u8],
) -> Popped
    ensures { popping result head.new staged.new deleted.new
        ≡ pop_of (edition_of edition) kind parent.now counts
        (lists staged_counts staged.old table_counts table.now deleted_counts deleted.old) head.old }
{
    if buffer_checks::pop_ok(
        edition,
        counts,
        head,
        staged_counts,
        staged,
        table_counts,
        table,
        deleted_counts,
        deleted,
    ) {
        return pop_core::pop(
            edition,
            kind,
            parent,
            counts,
            head,
            staged_counts,
            staged,
            table_counts,
            table,
            deleted_counts,
            deleted,
        );
    }
    Err(refusal::BUFFERS)
}

// The last box number of the head; on an empty head the newest row becomes the head first.
pub fn pop_box_entry(
    edition: RowEdition,
    parent: &[u8; 32],
    counts: HeadCounts,
    head: &mut [i64],
    staged_counts: ListCounts,
    staged: &mut [u8],
    table_counts: ListCounts,
    table: &[u8],
    deleted_counts: ListCounts,
    deleted: &mut [u8],
) -> PoppedBox
    ensures { popping (as_popped_box result) head.new staged.new deleted.new
        ≡ pop_of (edition_of edition) Box parent.now counts
        (lists staged_counts staged.old table_counts table.now deleted_counts deleted.old) head.old }
{
    let popped = pop_entry(
        edition,
        Kind::Box,
        parent,
        counts,
        head,
        staged_counts,
        staged,
        table_counts,
        table,
        deleted_counts,
        deleted,
    );
    let (n, after, staged_after, deleted_after) = popped?;
    Ok((BoxNumber(n), after, staged_after, deleted_after))
}

// The same for transactions.
pub fn pop_tx_entry(
    edition: RowEdition,
    parent: &[u8; 32],
    counts: HeadCounts,
    head: &mut [i64],
    staged_counts: ListCounts,
    staged: &mut [u8],
    table_counts: ListCounts,
    table: &[u8],
    deleted_counts: ListCounts,
    deleted: &mut [u8],
) -> PoppedTx
    ensures { popping (as_popped_tx result) head.new staged.new deleted.new
        ≡ pop_of (edition_of edition) Tx parent.now counts
        (lists staged_counts staged.old table_counts table.now deleted_counts deleted.old) head.old }
{
    let popped = pop_entry(
        edition,
        Kind::Tx,
        parent,
        counts,
        head,
        staged_counts,
        staged,
        table_counts,
        table,
        deleted_counts,
        deleted,
    );
    let (n, after, staged_after, deleted_after) = popped?;
    Ok((TxNumber(n), after, staged_after, deleted_after))
}

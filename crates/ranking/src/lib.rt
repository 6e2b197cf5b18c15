// Addresses in a fixed order: how two whole addresses rank, each borrowed with its own staged spills and table. Nothing is written.
#![tactic(auto)]

ghost use Rattle.std.specs.Prelude.{◌≡◌, ◌*◌, ◌≤◌, length};
ghost use Rattle.buffer_core.specs.Edition.{record_size};
ghost use Rattle.address_ranking.specs.Rank.{address_of, read_and_rank, rank_of};
ghost use Rattle.content_order.specs.Internal.{Passed};

use index_types::{AddressCounts, Ranked, RowEdition, TOKEN_ID_BYTES, TOKEN_LIMIT};

// Notes where the records of a table stand, if they are many.
fn note_table(edition: RowEdition, table: &[u8], count: usize, hints: &mut [u16])
    requires { count * record_size edition ≤ length table.now }
{
    if record_hints::FEW_RECORDS < count {
        let size = buffer_core::record_size(edition);
        record_hints::note_places(table, size, count, hints);
    }
}

// Reads and compares two addresses that pass refusals 25 and 41.
fn rank_noted<'a>(
    edition: RowEdition,
    counts: AddressCounts,
    hash: &[u8; 32],
    ids: &'a [u8; TOKEN_ID_BYTES],
    amounts: &'a [i64; TOKEN_LIMIT],
    boxes: &[i64],
    txs: &[i64],
    staged: &'a [u8],
    table: &'a [u8],
    other_edition: RowEdition,
    other_counts: AddressCounts,
    other_hash: &[u8; 32],
    other_ids: &'a [u8; TOKEN_ID_BYTES],
    other_amounts: &'a [i64; TOKEN_LIMIT],
    other_boxes: &[i64],
    other_txs: &[i64],
    other_staged: &'a [u8],
    other_table: &'a [u8],
) -> Ranked
    requires { Passed (address_of edition counts hash.now ids.now amounts.now boxes.now txs.now staged.now table.now)
        × Passed (address_of other_edition other_counts other_hash.now other_ids.now other_amounts.now other_boxes.now other_txs.now other_staged.now other_table.now) }
    ensures { result ≡ read_and_rank
        (address_of edition counts hash.now ids.now amounts.now boxes.now txs.now staged.now table.now)
        (address_of other_edition other_counts other_hash.now other_ids.now other_amounts.now other_boxes.now other_txs.now
        other_staged.now other_table.now) }
{
    let table_counts = counts.table;
    let other_table_counts = other_counts.table;
    let mut hints = [0u16; record_hints::HINTS];
    let mut other_hints = [0u16; record_hints::HINTS];
    note_table(edition, table, table_counts.count, &mut hints);
    note_table(
        other_edition,
        other_table,
        other_table_counts.count,
        &mut other_hints,
    );
    content_order::check_and_compare(
        edition,
        counts,
        hash,
        ids,
        amounts,
        boxes,
        txs,
        staged,
        table,
        &hints,
        other_edition,
        other_counts,
        other_hash,
        other_ids,
        other_amounts,
        other_boxes,
        other_txs,
        other_staged,
        other_table,
        &other_hints,
    )
}

// How two addresses rank: by the hash bytes, no balance before a balance, nanoErgs, the tokens by ascending id, the box entries, the transaction entries.
pub fn rank<'a>(
    edition: RowEdition,
    counts: AddressCounts,
    hash: &[u8; 32],
    ids: &'a [u8; TOKEN_ID_BYTES],
    amounts: &'a [i64; TOKEN_LIMIT],
    boxes: &[i64],
    txs: &[i64],
    staged: &'a [u8],
    table: &'a [u8],
    other_edition: RowEdition,
    other_counts: AddressCounts,
    other_hash: &[u8; 32],
    other_ids: &'a [u8; TOKEN_ID_BYTES],
    other_amounts: &'a [i64; TOKEN_LIMIT],
    other_boxes: &[i64],
    other_txs: &[i64],
    other_staged: &'a [u8],
    other_table: &'a [u8],
) -> Ranked
    ensures { result ≡ rank_of
        (address_of edition counts hash.now ids.now amounts.now boxes.now txs.now staged.now table.now)
        (address_of other_edition other_counts other_hash.now other_ids.now other_amounts.now other_boxes.now other_txs.now
        other_staged.now other_table.now) }
{
    let ok = address_ranking::address_ok(edition, counts, boxes, txs, staged, table);
    let other_ok = address_ranking::address_ok(
        other_edition,
        other_counts,
        other_boxes,
        other_txs,
        other_staged,
        other_table,
    );
    let twice = address_ranking::id_twice(counts, ids);
    let other_twice = address_ranking::id_twice(other_counts, other_ids);
    let buffers_ok = ok & other_ok;
    let id_twice = twice | other_twice;
    if !buffers_ok {
        return Err(refusal::BUFFERS);
    }
    if id_twice {
        return Err(refusal::TOKEN_TWICE);
    }
    rank_noted(
        edition,
        counts,
        hash,
        ids,
        amounts,
        boxes,
        txs,
        staged,
        table,
        other_edition,
        other_counts,
        other_hash,
        other_ids,
        other_amounts,
        other_boxes,
        other_txs,
        other_staged,
        other_table,
    )
}

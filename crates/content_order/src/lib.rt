// Two addresses that pass refusals 25 and 41: both read wholly as a pop reads them, then compared: the hashes, the balances, the box entries, the transaction
// entries.
#![tactic(auto)]

ghost use Rattle.std.specs.Prelude.{◌≡◌, List, ℤ};
ghost use Rattle.segment_id.specs.declared.Kind.TheVariants.{Box, Tx};
ghost use Rattle.buffer_core.specs.Spills.{sources};
ghost use Rattle.address_order.specs.Order.{or_else, of_accounts};
ghost use Rattle.side_order.specs.Internal.{RowsReady};
ghost use Rattle.address_ranking.specs.Rank.{address_of, account_in, read_and_rank};
ghost use Rattle.address_ranking.specs.Internal.{first_fault};
ghost use Rattle.content_order.specs.Internal.{sources_of, side_in, PassedSide, PassedSides, of_sides, Passed, Taken, fault_of_four};

use index_types::{
    AddressCounts, HeadCounts, Order, Ranked, RowEdition, TOKEN_ID_BYTES, TOKEN_LIMIT,
};
use segment_id::Kind;
use spill_rows::Read;

// How the entries of one kind compare.
fn compare_kind<'a>(
    kind: Kind,
    edition: RowEdition,
    hash: &[u8; 32],
    counts: HeadCounts,
    head: &[i64],
    staged: &'a [u8],
    staged_count: usize,
    table: &'a [u8],
    table_count: usize,
    hints: &[u16],
    other_edition: RowEdition,
    other_hash: &[u8; 32],
    other_counts: HeadCounts,
    other_head: &[i64],
    other_staged: &'a [u8],
    other_staged_count: usize,
    other_table: &'a [u8],
    other_table_count: usize,
    other_hints: &[u16],
) -> Order
    requires { PassedSide edition kind (sources hash.now staged.now staged_count table.now table_count) counts head.now
        × PassedSide other_edition kind (sources other_hash.now other_staged.now other_staged_count other_table.now other_table_count) other_counts other_head.now }
    ensures { result ≡ of_sides
        (side_in edition kind (sources hash.now staged.now staged_count table.now table_count) counts head.now)
        (side_in other_edition kind (sources other_hash.now other_staged.now other_staged_count other_table.now other_table_count) other_counts other_head.now) }
{
    let spills = counts.spills;
    let other_spills = other_counts.spills;
    side_order::compare_sides(
        kind,
        edition,
        hash,
        signed::usize_from_i32(spills),
        head,
        counts.len,
        staged,
        staged_count,
        table,
        table_count,
        hints,
        other_edition,
        other_hash,
        signed::usize_from_i32(other_spills),
        other_head,
        other_counts.len,
        other_staged,
        other_staged_count,
        other_table,
        other_table_count,
        other_hints,
    )
}

// How the entries compare: the boxes, then the transactions.
fn compare_entries<'a>(
    edition: RowEdition,
    counts: AddressCounts,
    hash: &[u8; 32],
    boxes: &[i64],
    txs: &[i64],
    staged: &'a [u8],
    table: &'a [u8],
    hints: &[u16],
    other_edition: RowEdition,
    other_counts: AddressCounts,
    other_hash: &[u8; 32],
    other_boxes: &[i64],
    other_txs: &[i64],
    other_staged: &'a [u8],
    other_table: &'a [u8],
    other_hints: &[u16],
) -> Order
    requires { PassedSides edition counts (sources_of counts hash.now staged.now table.now) boxes.now txs.now
        × PassedSides other_edition other_counts (sources_of other_counts other_hash.now other_staged.now other_table.now) other_boxes.now other_txs.now }
    ensures { result ≡ or_else
        (of_sides (side_in edition Box (sources_of counts hash.now staged.now table.now) counts.boxes boxes.now)
        (side_in other_edition Box (sources_of other_counts other_hash.now other_staged.now other_table.now) other_counts.boxes other_boxes.now))
        (of_sides (side_in edition Tx (sources_of counts hash.now staged.now table.now) counts.txs txs.now)
        (side_in other_edition Tx (sources_of other_counts other_hash.now other_staged.now other_table.now) other_counts.txs other_txs.now)) }
{
    let box_counts = counts.boxes;
    let tx_counts = counts.txs;
    let staged_counts = counts.staged;
    let table_counts = counts.table;
    let other_box_counts = other_counts.boxes;
    let other_tx_counts = other_counts.txs;
    let other_staged_counts = other_counts.staged;
    let other_table_counts = other_counts.table;
    let by_boxes = compare_kind(
        Kind::Box,
        edition,
        hash,
        box_counts,
        boxes,
        staged,
        staged_counts.count,
        table,
        table_counts.count,
        hints,
        other_edition,
        other_hash,
        other_box_counts,
        other_boxes,
        other_staged,
        other_staged_counts.count,
        other_table,
        other_table_counts.count,
        other_hints,
    );
    match by_boxes {
        Order::Less => Order::Less,
        Order::Greater => Order::Greater,
        Order::Equal => compare_kind(
            Kind::Tx,
            edition,
            hash,
            tx_counts,
            txs,
            staged,
            staged_counts.count,
            table,
            table_counts.count,
            hints,
            other_edition,
            other_hash,
            other_tx_counts,
            other_txs,
            other_staged,
            other_staged_counts.count,
            other_table,
            other_table_counts.count,
            other_hints,
        ),
    }
}

// How what two addresses hold compares: the hashes, the balances, the entries.
fn compare_contents<'a>(
    edition: RowEdition,
    counts: AddressCounts,
    hash: &[u8; 32],
    ids: &'a [u8; TOKEN_ID_BYTES],
    amounts: &'a [i64; TOKEN_LIMIT],
    boxes: &[i64],
    txs: &[i64],
    staged: &'a [u8],
    table: &'a [u8],
    hints: &[u16],
    other_edition: RowEdition,
    other_counts: AddressCounts,
    other_hash: &[u8; 32],
    other_ids: &'a [u8; TOKEN_ID_BYTES],
    other_amounts: &'a [i64; TOKEN_LIMIT],
    other_boxes: &[i64],
    other_txs: &[i64],
    other_staged: &'a [u8],
    other_table: &'a [u8],
    other_hints: &[u16],
) -> Order
    requires { Taken (address_of edition counts hash.now ids.now amounts.now boxes.now txs.now staged.now table.now)
        × Taken (address_of other_edition other_counts other_hash.now other_ids.now other_amounts.now other_boxes.now other_txs.now other_staged.now other_table.now) }
    ensures { result ≡ of_accounts
        (account_in (address_of edition counts hash.now ids.now amounts.now boxes.now txs.now staged.now table.now))
        (account_in (address_of other_edition other_counts other_hash.now other_ids.now other_amounts.now other_boxes.now other_txs.now
        other_staged.now other_table.now)) }
{
    let by_hash = token_order::compare_ids(hash, 0, other_hash, 0);
    match by_hash {
        Order::Less => Order::Less,
        Order::Greater => Order::Greater,
        Order::Equal => {
            let by_balance = address_ranking::compare_balances(
                counts.held,
                counts.nanos,
                ids,
                amounts,
                counts.tokens,
                other_counts.held,
                other_counts.nanos,
                other_ids,
                other_amounts,
                other_counts.tokens,
            );
            match by_balance {
                Order::Less => Order::Less,
                Order::Greater => Order::Greater,
                Order::Equal => compare_entries(
                    edition,
                    counts,
                    hash,
                    boxes,
                    txs,
                    staged,
                    table,
                    hints,
                    other_edition,
                    other_counts,
                    other_hash,
                    other_boxes,
                    other_txs,
                    other_staged,
                    other_table,
                    other_hints,
                ),
            }
        }
    }
}

// The refusal of the first that is refused.
fn first_fault(first: Read, second: Read) -> Read
    ensures { result ≡ first_fault first second }
{
    first?;
    second
}

// Whether a pop would refuse one of two addresses: the first address wholly, then the second.
fn check_both<'a>(
    edition: RowEdition,
    counts: AddressCounts,
    hash: &[u8; 32],
    staged: &'a [u8],
    table: &'a [u8],
    hints: &[u16],
    other_edition: RowEdition,
    other_counts: AddressCounts,
    other_hash: &[u8; 32],
    other_staged: &'a [u8],
    other_table: &'a [u8],
    other_hints: &[u16],
) -> Read
    requires { RowsReady edition (sources_of counts hash.now staged.now table.now) 0
        × RowsReady other_edition (sources_of other_counts other_hash.now other_staged.now other_table.now) 0 }
    ensures { (boxes txs other_boxes other_txs : List ℤ) → result ≡ fault_of_four
        (side_in edition Box (sources_of counts hash.now staged.now table.now) counts.boxes boxes)
        (side_in edition Tx (sources_of counts hash.now staged.now table.now) counts.txs txs)
        (side_in other_edition Box (sources_of other_counts other_hash.now other_staged.now other_table.now) other_counts.boxes other_boxes)
        (side_in other_edition Tx (sources_of other_counts other_hash.now other_staged.now other_table.now) other_counts.txs other_txs) }
{
    let box_counts = counts.boxes;
    let tx_counts = counts.txs;
    let staged_counts = counts.staged;
    let table_counts = counts.table;
    let other_box_counts = other_counts.boxes;
    let other_tx_counts = other_counts.txs;
    let other_staged_counts = other_counts.staged;
    let other_table_counts = other_counts.table;
    let first = address_ranking::check_address(
        edition,
        hash,
        box_counts.spills,
        tx_counts.spills,
        staged,
        staged_counts.count,
        table,
        table_counts.count,
        hints,
    );
    let second = address_ranking::check_address(
        other_edition,
        other_hash,
        other_box_counts.spills,
        other_tx_counts.spills,
        other_staged,
        other_staged_counts.count,
        other_table,
        other_table_counts.count,
        other_hints,
    );
    first_fault(first, second)
}

// Reads both addresses as a pop does, and then compares them.
pub fn check_and_compare<'a>(
    edition: RowEdition,
    counts: AddressCounts,
    hash: &[u8; 32],
    ids: &'a [u8; TOKEN_ID_BYTES],
    amounts: &'a [i64; TOKEN_LIMIT],
    boxes: &[i64],
    txs: &[i64],
    staged: &'a [u8],
    table: &'a [u8],
    hints: &[u16],
    other_edition: RowEdition,
    other_counts: AddressCounts,
    other_hash: &[u8; 32],
    other_ids: &'a [u8; TOKEN_ID_BYTES],
    other_amounts: &'a [i64; TOKEN_LIMIT],
    other_boxes: &[i64],
    other_txs: &[i64],
    other_staged: &'a [u8],
    other_table: &'a [u8],
    other_hints: &[u16],
) -> Ranked
    requires { Passed (address_of edition counts hash.now ids.now amounts.now boxes.now txs.now staged.now table.now)
        × Passed (address_of other_edition other_counts other_hash.now other_ids.now other_amounts.now other_boxes.now other_txs.now other_staged.now other_table.now) }
    ensures { result ≡ read_and_rank
        (address_of edition counts hash.now ids.now amounts.now boxes.now txs.now staged.now table.now)
        (address_of other_edition other_counts other_hash.now other_ids.now other_amounts.now other_boxes.now other_txs.now
        other_staged.now other_table.now) }
{
    let checked = check_both(
        edition,
        counts,
        hash,
        staged,
        table,
        hints,
        other_edition,
        other_counts,
        other_hash,
        other_staged,
        other_table,
        other_hints,
    );
    match checked {
        Err(code) => Err(code),
        Ok(()) => Ok(compare_contents(
            edition,
            counts,
            hash,
            ids,
            amounts,
            boxes,
            txs,
            staged,
            table,
            hints,
            other_edition,
            other_counts,
            other_hash,
            other_ids,
            other_amounts,
            other_boxes,
            other_txs,
            other_staged,
            other_table,
            other_hints,
        )),
    }
}

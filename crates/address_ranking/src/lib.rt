// Two whole addresses in a fixed order, each borrowed with its own staged spills and table: the definition of the rank, the checks of an address, and the
// comparison of two balances.
#![tactic(auto)]

ghost use Rattle.std.specs.Prelude.{◌≡◌, true, not, ◌||◌, leb, List, ℤ};
ghost use Rattle.index_types.specs.Limits.{token_limit};
ghost use Rattle.segment_id.specs.declared.Kind.TheVariants.{Box, Tx};
ghost use Rattle.buffer_core.specs.Edition.{edition_of};
ghost use Rattle.buffer_core.specs.Spills.{sources};
ghost use Rattle.spill_rows.specs.Internal.{read_of};
ghost use Rattle.address_order.specs.Order.{of_held};
ghost use Rattle.token_order.specs.Internal.{TokensReady};
ghost use Rattle.side_order.specs.Side.{side_of};
ghost use Rattle.side_order.specs.Internal.{RowsReady};
ghost use Rattle.address_ranking.specs.Rank.{address_ok, id_twice, balance_of};
ghost use Rattle.address_ranking.specs.Internal.{first_fault};

use index_types::{
    AddressCounts, HeadCounts, ListCounts, Order, RowEdition, TOKEN_ID_BYTES, TOKEN_LIMIT,
};
use segment_id::Kind;
use spill_rows::Read;

// Refusal 25 of an address.
pub fn address_ok(
    edition: RowEdition,
    counts: AddressCounts,
    boxes: &[i64],
    txs: &[i64],
    staged: &[u8],
    table: &[u8],
) -> bool
    ensures { result ≡ address_ok edition counts boxes.now txs.now staged.now table.now }
{
    let box_counts = counts.boxes;
    let tx_counts = counts.txs;
    let staged_counts = counts.staged;
    let table_counts = counts.table;
    let tokens_ok = !counts.held | (counts.tokens <= TOKEN_LIMIT);
    if !tokens_ok {
        return false;
    }
    if !buffer_core::head_ok(boxes, box_counts) {
        return false;
    }
    if !buffer_core::head_ok(txs, tx_counts) {
        return false;
    }
    if !buffer_checks::spills_ok(edition, staged, staged_counts) {
        return false;
    }
    buffer_checks::spills_ok(edition, table, table_counts)
}

// Refusal 41 of an address that passes 25: whether a token id stands twice in its balance.
pub fn id_twice(counts: AddressCounts, ids: &[u8; TOKEN_ID_BYTES]) -> bool
    ensures { not counts.held || leb counts.tokens token_limit ≡ true → result ≡ id_twice counts ids.now }
{
    if !counts.held {
        return false;
    }
    let kept = ListCounts {
        count: counts.tokens,
        capacity: TOKEN_LIMIT,
    };
    let apart = distinct_keys::keys_ok(ids, kept);
    !apart
}

// Whether a pop would refuse an address: its box side, then its transaction side.
pub fn check_address<'a>(
    edition: RowEdition,
    hash: &[u8; 32],
    box_spills: i32,
    tx_spills: i32,
    staged: &'a [u8],
    staged_count: usize,
    table: &'a [u8],
    table_count: usize,
    hints: &[u16],
) -> Read
    requires { RowsReady edition (sources hash.now staged.now staged_count table.now table_count) 0 }
    ensures { (boxes txs : List ℤ) → result ≡ first_fault
        (read_of (side_of (edition_of edition) Box (sources hash.now staged.now staged_count table.now table_count) box_spills boxes))
        (read_of (side_of (edition_of edition) Tx (sources hash.now staged.now staged_count table.now table_count) tx_spills txs)) }
{
    let boxes = side_order::check_side(
        edition,
        Kind::Box,
        hash,
        box_spills,
        staged,
        staged_count,
        table,
        table_count,
        hints,
    );
    boxes?;
    side_order::check_side(
        edition,
        Kind::Tx,
        hash,
        tx_spills,
        staged,
        staged_count,
        table,
        table_count,
        hints,
    )
}

// How two balances compare: none before one, then nanoErgs, then the tokens.
pub fn compare_balances<'a>(
    held: bool,
    nanos: i64,
    ids: &'a [u8],
    amounts: &'a [i64],
    count: usize,
    other_held: bool,
    other_nanos: i64,
    other_ids: &'a [u8],
    other_amounts: &'a [i64],
    other_count: usize,
) -> Order
    requires { (held ≡ true → TokensReady ids.now amounts.now count) × (other_held ≡ true → TokensReady other_ids.now other_amounts.now other_count) }
    ensures { result ≡ of_held (balance_of held nanos ids.now amounts.now count)
        (balance_of other_held other_nanos other_ids.now other_amounts.now other_count) }
{
    if !held {
        if other_held {
            return Order::Less;
        }
        return Order::Equal;
    }
    if !other_held {
        return Order::Greater;
    }
    let by_nanos = token_order::compare_signed(nanos, other_nanos);
    match by_nanos {
        Order::Less => Order::Less,
        Order::Greater => Order::Greater,
        Order::Equal => token_order::compare_tokens(
            ids,
            amounts,
            count,
            other_ids,
            other_amounts,
            other_count,
        ),
    }
}

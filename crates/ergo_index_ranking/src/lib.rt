// How two whole addresses rank. An address is borrowed as its hash, its balance if it has one, two heads, and its own staged spills and table.
#![tactic(auto)]

ghost use Rattle.std.specs.Prelude.{◌≡◌};
ghost use Rattle.ergo_index_lists.specs.Lists.{named_edition};
ghost use Rattle.address_ranking.specs.Rank.{address_of, rank_of};
ghost use Rattle.ergo_index_ranking.specs.Ranking.{address_counts, order_number, rank_out, rank_by};

use index_types::{
    AddressCounts, HeadCounts, ListCounts, Order, Ranked, TOKEN_ID_BYTES, TOKEN_LIMIT,
};

// The counts of an address.
fn counts_of(
    held: bool,
    nanos: i64,
    tokens: usize,
    box_len: usize,
    box_spills: i32,
    tx_len: usize,
    tx_spills: i32,
    staged_count: usize,
    staged_capacity: usize,
    table_count: usize,
    table_capacity: usize,
) -> AddressCounts
    ensures { result ≡ address_counts held nanos tokens box_len box_spills tx_len tx_spills staged_count staged_capacity table_count table_capacity }
{
    let boxes = HeadCounts {
        len: box_len,
        spills: box_spills,
    };
    let txs = HeadCounts {
        len: tx_len,
        spills: tx_spills,
    };
    let staged = ListCounts {
        count: staged_count,
        capacity: staged_capacity,
    };
    let table = ListCounts {
        count: table_count,
        capacity: table_capacity,
    };
    AddressCounts {
        held,
        nanos,
        tokens,
        boxes,
        txs,
        staged,
        table,
    }
}

// -1, 0 or 1.
fn number_of(order: Order) -> i32
    ensures { result ≡ order_number order }
{
    match order {
        Order::Less => -1,
        Order::Equal => 0,
        Order::Greater => 1,
    }
}

// The order goes to the out, and the code is the result; a refusal leaves the out.
fn told(ranked: Ranked, order: &mut i32) -> u8
    ensures { rank_out result order.new ≡ rank_by ranked order.old }
{
    match ranked {
        Ok(by) => {
            let number = number_of(by);
            *order = number;
            0
        }
        Err(code) => code,
    }
}

// How the first address ranks to the second: -1 before it, 0 equal, 1 behind it. Each has rows of the edition that its flag names.
#[unsafe(no_mangle)]
pub extern "C" fn ergo_index_rank<'a>(
    second_edition: bool,
    hash: &[u8; 32],
    held: bool,
    nanos: i64,
    ids: &'a [u8; TOKEN_ID_BYTES],
    amounts: &'a [i64; TOKEN_LIMIT],
    tokens: usize,
    box_len: usize,
    box_spills: i32,
    boxes: &[i64],
    tx_len: usize,
    tx_spills: i32,
    txs: &[i64],
    staged_count: usize,
    staged_capacity: usize,
    staged: &'a [u8],
    table_count: usize,
    table_capacity: usize,
    table: &'a [u8],
    other_second_edition: bool,
    other_hash: &[u8; 32],
    other_held: bool,
    other_nanos: i64,
    other_ids: &'a [u8; TOKEN_ID_BYTES],
    other_amounts: &'a [i64; TOKEN_LIMIT],
    other_tokens: usize,
    other_box_len: usize,
    other_box_spills: i32,
    other_boxes: &[i64],
    other_tx_len: usize,
    other_tx_spills: i32,
    other_txs: &[i64],
    other_staged_count: usize,
    other_staged_capacity: usize,
    other_staged: &'a [u8],
    other_table_count: usize,
    other_table_capacity: usize,
    other_table: &'a [u8],
    order: &mut i32,
) -> u8
    ensures { rank_out result order.new ≡ rank_by (rank_of
        (address_of (named_edition second_edition) (address_counts held nanos tokens box_len box_spills tx_len tx_spills staged_count staged_capacity table_count table_capacity)
        hash.now ids.now amounts.now boxes.now txs.now staged.now table.now)
        (address_of (named_edition other_second_edition) (address_counts other_held other_nanos other_tokens other_box_len other_box_spills other_tx_len other_tx_spills other_staged_count other_staged_capacity other_table_count other_table_capacity)
        other_hash.now other_ids.now other_amounts.now other_boxes.now other_txs.now other_staged.now other_table.now)) order.old }
{
    let counts = counts_of(
        held,
        nanos,
        tokens,
        box_len,
        box_spills,
        tx_len,
        tx_spills,
        staged_count,
        staged_capacity,
        table_count,
        table_capacity,
    );
    let other_counts = counts_of(
        other_held,
        other_nanos,
        other_tokens,
        other_box_len,
        other_box_spills,
        other_tx_len,
        other_tx_spills,
        other_staged_count,
        other_staged_capacity,
        other_table_count,
        other_table_capacity,
    );
    let ranked = ranking::rank(
        ergo_index_lists::named_edition(second_edition),
        counts,
        hash,
        ids,
        amounts,
        boxes,
        txs,
        staged,
        table,
        ergo_index_lists::named_edition(other_second_edition),
        other_counts,
        other_hash,
        other_ids,
        other_amounts,
        other_boxes,
        other_txs,
        other_staged,
        other_table,
    );
    told(ranked, order)
}

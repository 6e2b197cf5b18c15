// Address records. The writer moves the position behind what it wrote; the reader fills borrowed lists of 512 and the outs.
#![tactic(auto)]

ghost use Rattle.std.specs.Prelude.{◌≡◌};
ghost use Rattle.address_core.specs.Writing.{write_address};
ghost use Rattle.address_core.specs.Loading.{read_address};
ghost use Rattle.ergo_index_numbers.specs.Numbers.{write_out, write_export};
ghost use Rattle.ergo_index_addresses.specs.Addresses.{address, address_out, address_export};

use index_types::{TOKEN_ID_BYTES, TOKEN_LIMIT};

// Writes an address record: the hash, the flag, the balance where the flag is set, and the segment.
#[unsafe(no_mangle)]
pub extern "C" fn ergo_index_write_indexed_address(
    hash: &[u8; 32],
    has_balance: bool,
    ids: &[u8; TOKEN_ID_BYTES],
    amounts: &[i64; TOKEN_LIMIT],
    count: usize,
    nanos: i64,
    txs: &[i64],
    n_txs: usize,
    boxes: &[i64],
    n_boxes: usize,
    box_segment_count: i32,
    tx_segment_count: i32,
    out: &mut [u8],
    at: &mut usize,
) -> u8
    ensures { write_out result at.new out.new
        ≡ write_export at.old (write_address hash.now has_balance nanos ids.now amounts.now count txs.now n_txs boxes.now n_boxes box_segment_count tx_segment_count out.old at.old) }
{
    let wrote = address_writing::write_address(
        hash,
        has_balance,
        nanos,
        ids,
        amounts,
        count,
        txs,
        n_txs,
        boxes,
        n_boxes,
        box_segment_count,
        tx_segment_count,
        out,
        *at,
    );
    ergo_index_numbers::moved(wrote, at)
}

// Reads an address record that takes up all the bytes.
#[unsafe(no_mangle)]
pub extern "C" fn ergo_index_read_indexed_address(
    row: &[u8],
    hash: &mut [u8; 32],
    has_balance: &mut bool,
    ids: &mut [u8; TOKEN_ID_BYTES],
    amounts: &mut [i64; TOKEN_LIMIT],
    count: &mut usize,
    nanos: &mut i64,
    txs: &mut [i64],
    n_txs: &mut usize,
    boxes: &mut [i64],
    n_boxes: &mut usize,
    box_segment_count: &mut i32,
    tx_segment_count: &mut i32,
) -> u8
    ensures { address_out result
        (address hash.new has_balance.new ids.new amounts.new count.new nanos.new n_txs.new n_boxes.new box_segment_count.new tx_segment_count.new)
        txs.new boxes.new
        ≡ address_export
        (address hash.old has_balance.old ids.old amounts.old count.old nanos.old n_txs.old n_boxes.old box_segment_count.old tx_segment_count.old)
        (read_address row.now txs.old boxes.old) }
{
    let read = address::read_indexed_address(row, txs, boxes);
    let answer = read.answer;
    match answer {
        Ok(()) => {
            let found = read.address;
            let held = found.balance;
            let found_hash = found.hash;
            let found_ids = held.ids;
            let found_amounts = held.amounts;
            let found_nanos = held.nanos;
            let found_boxes_spilled = found.box_segment_count;
            let found_txs_spilled = found.tx_segment_count;
            *hash = found_hash;
            *has_balance = found.has_balance;
            *ids = found_ids;
            *amounts = found_amounts;
            *count = held.count;
            *nanos = found_nanos;
            *n_txs = found.txs;
            *n_boxes = found.boxes;
            *box_segment_count = found_boxes_spilled;
            *tx_segment_count = found_txs_spilled;
            0
        }
        Err(code) => code,
    }
}

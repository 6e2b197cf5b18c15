// The address record, written to and read from borrowed bytes: `IndexedAddress` and `read_indexed_address` of address.rs.
#![tactic(auto)]

ghost use Rattle.std.specs.Prelude.{◌≡◌};
ghost use Rattle.vlq_core.specs.Writing.{written};
ghost use Rattle.address_core.specs.Writing.{write_address};
ghost use Rattle.address_core.specs.Loading.{loading, read_address};

pub use address_core::{AddressRead, IndexedAddress};
use balance::Balance;
use index_types::{ADDRESS_LIMIT, SEGMENT_THRESHOLD, Wrote};

// Writes a hash, a flag, the balance where the flag is set, and the first n_txs transactions and n_boxes boxes with their spill counts
// as a record from a position on; a refused call changes nothing.
pub fn write_indexed_address(
    hash: &[u8; 32],
    has_balance: bool,
    balance: Balance,
    txs: &[i64],
    n_txs: usize,
    boxes: &[i64],
    n_boxes: usize,
    box_segment_count: i32,
    tx_segment_count: i32,
    out: &mut [u8],
    at: usize,
) -> Wrote
    ensures { written result out.new
        ≡ write_address hash.now has_balance balance.nanos balance.ids balance.amounts balance.count
        txs.now n_txs boxes.now n_boxes box_segment_count tx_segment_count out.old at }
{
    let nanos = balance.nanos;
    let count = balance.count;
    let ids = balance.ids;
    let amounts = balance.amounts;
    address_writing::write_address(
        hash,
        has_balance,
        nanos,
        &ids,
        &amounts,
        count,
        txs,
        n_txs,
        boxes,
        n_boxes,
        box_segment_count,
        tx_segment_count,
        out,
        at,
    )
}

// Reads a record into an address and borrowed lists of 512, which zeros fill up; a refused call changes neither list.
pub fn read_indexed_address(row: &[u8], txs: &mut [i64], boxes: &mut [i64]) -> AddressRead
    ensures { loading result txs.new boxes.new ≡ read_address row.now txs.old boxes.old }
{
    if ADDRESS_LIMIT < row.len() {
        return address_reading::refused(refusal::BUFFERS);
    }
    if txs.len() < SEGMENT_THRESHOLD {
        return address_reading::refused(refusal::BUFFERS);
    }
    if boxes.len() < SEGMENT_THRESHOLD {
        return address_reading::refused(refusal::BUFFERS);
    }
    address_reading::read_address(row, txs, boxes)
}

// The segment row, written to and read from borrowed bytes: `write_segment` and `read_persisted_segment` of segment.rs.
#![tactic(auto)]

ghost use Rattle.std.specs.Prelude.{◌≡◌};
ghost use Rattle.vlq_core.specs.Writing.{written};
ghost use Rattle.segment_core.specs.Row.{row_limit};
ghost use Rattle.segment_core.specs.Loading.{loading};
ghost use Rattle.segment.specs.Calls.{held, write_of, read_of};

use index_types::{Loaded, SEGMENT_THRESHOLD, Wrote};
use segment_core::ROW_LIMIT;

// Whether n numbers are within 512 and within a borrowed list of len.
pub fn is_held(n: usize, len: usize) -> bool
    ensures { result ≡ held n len }
{
    if SEGMENT_THRESHOLD < n {
        return false;
    }
    n <= len
}

// Writes the first n_txs transactions and the first n_boxes boxes, with the spill counts, as a row from a position on; a refused call changes nothing.
// Where the longest row has room, the row's size is not measured first.
pub fn write_segment(
    txs: &[i64],
    n_txs: usize,
    boxes: &[i64],
    n_boxes: usize,
    box_segment_count: i32,
    tx_segment_count: i32,
    out: &mut [u8],
    at: usize,
) -> Wrote
    ensures { written result out.new
        ≡ write_of txs.now n_txs boxes.now n_boxes box_segment_count tx_segment_count out.old at }
{
    if !is_held(n_txs, txs.len()) {
        return Err(refusal::BUFFERS);
    }
    if !is_held(n_boxes, boxes.len()) {
        return Err(refusal::BUFFERS);
    }
    if vlq_core::has_room(out.len(), at, ROW_LIMIT) {
        return Ok(segment_writing::emit_segment(
            txs,
            n_txs,
            boxes,
            n_boxes,
            box_segment_count,
            tx_segment_count,
            out,
            at,
        ));
    }
    let n = segment_writing::segment_len(
        txs,
        n_txs,
        boxes,
        n_boxes,
        box_segment_count,
        tx_segment_count,
    );
    if !vlq_core::has_room(out.len(), at, n) {
        return Err(refusal::OUTPUT_TOO_SHORT);
    }
    Ok(segment_writing::emit_segment(
        txs,
        n_txs,
        boxes,
        n_boxes,
        box_segment_count,
        tx_segment_count,
        out,
        at,
    ))
}

// Reads a row into borrowed lists of 512, which zeros fill up; a refused call changes neither.
pub fn read_persisted_segment(row: &[u8], txs: &mut [i64], boxes: &mut [i64]) -> Loaded
    ensures { loading result txs.new boxes.new ≡ read_of row_limit row.now txs.old boxes.old }
{
    if ROW_LIMIT < row.len() {
        return Loaded::Refused(refusal::BUFFERS);
    }
    if txs.len() < SEGMENT_THRESHOLD {
        return Loaded::Refused(refusal::BUFFERS);
    }
    if boxes.len() < SEGMENT_THRESHOLD {
        return Loaded::Refused(refusal::BUFFERS);
    }
    segment_loading::read_last_segment(row, 0, txs, boxes)
}

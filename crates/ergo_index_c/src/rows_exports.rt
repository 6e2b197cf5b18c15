// Segment rows. The writer moves the position behind what it wrote; the reader fills borrowed lists of 512 and the outs.
ghost use Rattle.std.specs.Prelude.{◌≡◌};
ghost use Rattle.segment_core.specs.Row.{row_limit};
ghost use Rattle.segment.specs.Calls.{write_of, read_of};
ghost use Rattle.ergo_index_numbers.specs.Numbers.{write_out, write_export};
ghost use Rattle.ergo_index_rows.specs.Rows.{counted, row_out, row_export};

// Writes the first n_txs transactions and the first n_boxes boxes, with the spill counts, as a row.
#[unsafe(no_mangle)]
pub extern "C" fn ergo_index_write_segment(
    txs: &[i64],
    n_txs: usize,
    boxes: &[i64],
    n_boxes: usize,
    box_segment_count: i32,
    tx_segment_count: i32,
    out: &mut [u8],
    at: &mut usize,
) -> u8
    ensures { write_out result at.new out.new
        ≡ write_export at.old (write_of txs.now n_txs boxes.now n_boxes box_segment_count tx_segment_count out.old at.old) }
{
    ergo_index_rows::ergo_index_write_segment(
        txs,
        n_txs,
        boxes,
        n_boxes,
        box_segment_count,
        tx_segment_count,
        out,
        at,
    )
}

// Reads a row that takes up all the bytes.
#[unsafe(no_mangle)]
pub extern "C" fn ergo_index_read_persisted_segment(
    row: &[u8],
    txs: &mut [i64],
    n_txs: &mut usize,
    boxes: &mut [i64],
    n_boxes: &mut usize,
    box_segment_count: &mut i32,
    tx_segment_count: &mut i32,
) -> u8
    ensures { row_out result (counted n_txs.new n_boxes.new box_segment_count.new tx_segment_count.new) txs.new boxes.new
        ≡ row_export (counted n_txs.old n_boxes.old box_segment_count.old tx_segment_count.old) (read_of row_limit row.now txs.old boxes.old) }
{
    ergo_index_rows::ergo_index_read_persisted_segment(
        row,
        txs,
        n_txs,
        boxes,
        n_boxes,
        box_segment_count,
        tx_segment_count,
    )
}

// The segment row written: the size of each part, and the part written where it fits.
// Internal: the writers ask for room and for lists within 512. The public calls are those of `segment`.
#![tactic(auto)]

ghost use Rattle.std.specs.Prelude.{◌≡◌, ◌+◌, ◌*◌, ◌≤◌, length, take};
ghost use Rattle.stores.specs.Stores.{Put};
ghost use Rattle.segment_core.specs.Row.{numbers_bytes, list_bytes, counts_bytes, row_bytes, row_limit, Held, Room};

fn numbers_len(xs: &[i64], n: usize) -> usize
    requires { Held n xs.now }
    ensures { (result ≡ length (numbers_bytes (take n xs.now))) × (result ≤ 5120) }
{
    let mut sum = 0;
    for x in &xs[..n] {
        sum += vlq_writing::number_len(*x);
    }
    sum
}

fn emit_numbers(xs: &[i64], n: usize, out: &mut [u8], at: usize) -> usize
    requires { (n ≤ length xs.now) × Room at (length out.old) (numbers_bytes (take n xs.now)) (10 * n) }
    ensures { Put (numbers_bytes (take n xs.now)) out.old at result out.new × (result ≤ at + 10 * n) }
{
    let mut o = at;
    for x in &xs[..n] {
        o = vlq_writing::emit_i64(*x, out, o);
    }
    o
}

// The number of bytes of the first n numbers as a list.
pub fn list_len(xs: &[i64], n: usize) -> usize
    requires { Held n xs.now }
    ensures { (result ≡ length (list_bytes (take n xs.now))) × (result ≤ 5122) }
{
    vlq_writing::number_len_i32(signed::i32_from_usize(n)) + numbers_len(xs, n)
}

// Writes the first n numbers as a list: the position after them.
pub fn emit_list(xs: &[i64], n: usize, out: &mut [u8], at: usize) -> usize
    requires { Held n xs.now × Room at (length out.old) (list_bytes (take n xs.now)) 5122 }
    ensures { Put (list_bytes (take n xs.now)) out.old at result out.new × (result ≤ at + 5122) }
{
    let o = vlq_writing::emit_i32(signed::i32_from_usize(n), out, at);
    emit_numbers(xs, n, out, o)
}

fn counts_len(b: i32, t: i32) -> usize
    ensures { (result ≡ length (counts_bytes b t)) × (result ≤ 10) }
{
    vlq_writing::number_len_i32(b) + vlq_writing::number_len_i32(t)
}

fn emit_counts(b: i32, t: i32, out: &mut [u8], at: usize) -> usize
    requires { at + length (counts_bytes b t) ≤ length out.old }
    ensures { Put (counts_bytes b t) out.old at result out.new }
{
    let o = vlq_writing::emit_i32(b, out, at);
    vlq_writing::emit_i32(t, out, o)
}

// The number of bytes of a row.
pub fn segment_len(
    txs: &[i64],
    n_txs: usize,
    boxes: &[i64],
    n_boxes: usize,
    box_count: i32,
    tx_count: i32,
) -> usize
    requires { Held n_txs txs.now × Held n_boxes boxes.now }
    ensures { (result ≡ length (row_bytes (take n_txs txs.now) (take n_boxes boxes.now) box_count tx_count)) × (result ≤ row_limit) }
{
    list_len(txs, n_txs) + list_len(boxes, n_boxes) + counts_len(box_count, tx_count)
}

// Writes a row from a position on, where it fits or the longest row would: the position after it.
pub fn emit_segment(
    txs: &[i64],
    n_txs: usize,
    boxes: &[i64],
    n_boxes: usize,
    box_count: i32,
    tx_count: i32,
    out: &mut [u8],
    at: usize,
) -> usize
    requires { Held n_txs txs.now × Held n_boxes boxes.now
        × Room at (length out.old) (row_bytes (take n_txs txs.now) (take n_boxes boxes.now) box_count tx_count) row_limit }
    ensures { Put (row_bytes (take n_txs txs.now) (take n_boxes boxes.now) box_count tx_count) out.old at result out.new
        × (result ≤ at + row_limit) }
{
    let o = emit_list(txs, n_txs, out, at);
    let p = emit_list(boxes, n_boxes, out, o);
    emit_counts(box_count, tx_count, out, p)
}

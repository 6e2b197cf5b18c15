// What the writers write, a line each: the refusal code, or 0 and the output up to the position behind what was written, in hexadecimal.
ghost use Rattle.std.specs.Prelude.{◌≡◌, ◌≤◌, length};

use balance::Balance;
use index_types::{ADDRESS_LIMIT, Wrote};
use segment_core::ROW_LIMIT;
use std::io;
use std::io::Write;

fn written<W: Write>(to: &mut W, name: &[u8], wrote: Wrote, out: &[u8]) -> io::Result<()> {
    match wrote {
        Ok(next) => {
            vector_line::accepted(to, name)?;
            vector_fields::bytes(to, out, 1, next)?;
            vector_line::end(to)
        }
        Err(code) => vector_line::code_line(to, name, code),
    }
}

// ---- coded numbers: the number, the position, and the output

fn put_long<W: Write>(
    to: &mut W,
    name: &[u8],
    n: i64,
    at: usize,
    out: &mut [u8],
) -> io::Result<()> {
    let wrote = vlq::put_i64(n, out, at);
    written(to, name, wrote, out)
}

fn put_int<W: Write>(to: &mut W, name: &[u8], n: i32, at: usize, out: &mut [u8]) -> io::Result<()> {
    let wrote = vlq::put_i32(n, out, at);
    written(to, name, wrote, out)
}

// Writes a number of 64 bits.
pub fn long<W: Write>(to: &mut W, name: &[u8], s: &[u8]) -> io::Result<()> {
    let mut out = [0u8; 64];
    let number = vector_fields::number_at(s, 0);
    let at = vector_fields::size_at(s, number.next);
    let part = vector_fields::bytes_at(s, at.next, &mut out);
    let len = part.len;
    put_long(to, name, number.n, at.n, &mut out[0..len])
}

// Writes a number of 32 bits.
pub fn int<W: Write>(to: &mut W, name: &[u8], s: &[u8]) -> io::Result<()> {
    let mut out = [0u8; 64];
    let number = vector_fields::count_at(s, 0);
    let at = vector_fields::size_at(s, number.next);
    let part = vector_fields::bytes_at(s, at.next, &mut out);
    let len = part.len;
    put_int(to, name, number.n, at.n, &mut out[0..len])
}

// ---- segments

// How many transactions and boxes are written, the two spill counts, and the position.
#[derive(Clone, Copy)]
struct Shape {
    n_txs: usize,
    n_boxes: usize,
    box_segment_count: i32,
    tx_segment_count: i32,
    at: usize,
    next: usize,
}

fn shape_at(s: &[u8], at: usize) -> Shape {
    let n_txs = vector_fields::size_at(s, at);
    let n_boxes = vector_fields::size_at(s, n_txs.next);
    let boxes = vector_fields::count_at(s, n_boxes.next);
    let txs = vector_fields::count_at(s, boxes.next);
    let from = vector_fields::size_at(s, txs.next);
    Shape {
        n_txs: n_txs.n,
        n_boxes: n_boxes.n,
        box_segment_count: boxes.n,
        tx_segment_count: txs.n,
        at: from.n,
        next: from.next,
    }
}

fn write_row<W: Write>(
    to: &mut W,
    name: &[u8],
    shape: Shape,
    txs: &[i64],
    boxes: &[i64],
    out: &mut [u8],
) -> io::Result<()> {
    let wrote = segment::write_segment(
        txs,
        shape.n_txs,
        boxes,
        shape.n_boxes,
        shape.box_segment_count,
        shape.tx_segment_count,
        out,
        shape.at,
    );
    written(to, name, wrote, out)
}

// Writes a row: how many numbers, the spill counts and the position, then transactions, boxes and the output.
pub fn row<W: Write>(to: &mut W, name: &[u8], s: &[u8]) -> io::Result<()> {
    let mut txs = [0i64; 513];
    let mut boxes = [0i64; 513];
    let mut out = [0u8; ROW_LIMIT];
    let shape = shape_at(s, 0);
    let t = vector_fields::numbers_at(s, shape.next, &mut txs);
    let b = vector_fields::numbers_at(s, t.next, &mut boxes);
    let o = vector_fields::bytes_at(s, b.next, &mut out);
    let t_len = t.len;
    let b_len = b.len;
    let o_len = o.len;
    write_row(
        to,
        name,
        shape,
        &txs[0..t_len],
        &boxes[0..b_len],
        &mut out[0..o_len],
    )
}

// ---- address records

fn write_record<W: Write>(
    to: &mut W,
    name: &[u8],
    hash: &[u8; 32],
    flag: bool,
    balance: Balance,
    shape: Shape,
    txs: &[i64],
    boxes: &[i64],
    out: &mut [u8],
) -> io::Result<()> {
    let wrote = address::write_indexed_address(
        hash,
        flag,
        balance,
        txs,
        shape.n_txs,
        boxes,
        shape.n_boxes,
        shape.box_segment_count,
        shape.tx_segment_count,
        out,
        shape.at,
    );
    written(to, name, wrote, out)
}

// Writes an address record: the hash, the flag and the balance, then as a row.
pub fn address<W: Write>(to: &mut W, name: &[u8], s: &[u8]) -> io::Result<()> {
    let mut hash = [0u8; 32];
    let h = vector_fields::bytes_at(s, 0, &mut hash);
    let flag = vector_fields::size_at(s, h.next);
    let held = vector_balances::balance_at(s, flag.next);
    let balance = held.balance;
    let shape = shape_at(s, held.next);
    let mut txs = [0i64; 513];
    let mut boxes = [0i64; 513];
    let mut out = [0u8; ADDRESS_LIMIT];
    let t = vector_fields::numbers_at(s, shape.next, &mut txs);
    let b = vector_fields::numbers_at(s, t.next, &mut boxes);
    let o = vector_fields::bytes_at(s, b.next, &mut out);
    let t_len = t.len;
    let b_len = b.len;
    let o_len = o.len;
    write_record(
        to,
        name,
        &hash,
        flag.n == 1,
        balance,
        shape,
        &txs[0..t_len],
        &boxes[0..b_len],
        &mut out[0..o_len],
    )
}

// What the readers answer, a line each: the refusal code, or 0 and all that was read.
ghost use Rattle.std.specs.Prelude.{◌≡◌, ◌≤◌, length};

use address::{AddressRead, IndexedAddress};
use index_types::{Loaded, Long, SEGMENT_THRESHOLD};
use std::io;
use std::io::Write;
use vlq_reader::Span;

// ---- coded numbers: the number, and the position behind it

fn long_line<W: Write>(to: &mut W, name: &[u8], found: Long) -> io::Result<()> {
    match found {
        Ok((n, next)) => {
            vector_line::accepted(to, name)?;
            vector_line::signed_number(to, n)?;
            vector_line::number(to, next as u64)?;
            vector_line::end(to)
        }
        Err(code) => vector_line::code_line(to, name, code),
    }
}

// The 64-bit number at a position of the bytes behind it.
pub fn long<W: Write>(to: &mut W, name: &[u8], s: &[u8]) -> io::Result<()> {
    let mut src = [0u8; 64];
    let at = vector_fields::size_at(s, 0);
    let part = vector_fields::bytes_at(s, at.next, &mut src);
    let len = part.len;
    long_line(to, name, vlq::get_i64(&src[0..len], at.n))
}

// The 32-bit number at a position of the bytes behind it.
pub fn int<W: Write>(to: &mut W, name: &[u8], s: &[u8]) -> io::Result<()> {
    let mut src = [0u8; 64];
    let at = vector_fields::size_at(s, 0);
    let part = vector_fields::bytes_at(s, at.next, &mut src);
    let len = part.len;
    match vlq::get_i32(&src[0..len], at.n) {
        Ok((n, next)) => {
            vector_line::accepted(to, name)?;
            vector_line::signed_number(to, signed::i64_from_i32(n))?;
            vector_line::number(to, next as u64)?;
            vector_line::end(to)
        }
        Err(code) => vector_line::code_line(to, name, code),
    }
}

// The number at the start of a record's bytes, through a reader.
pub fn first<W: Write>(to: &mut W, name: &[u8], s: &[u8]) -> io::Result<()> {
    long_line(to, name, vlq_reader::first_i64(s))
}

// Where n bytes from a position on begin and end: n, the position, and the bytes.
pub fn span<W: Write>(to: &mut W, name: &[u8], s: &[u8]) -> io::Result<()> {
    let n = vector_fields::size_at(s, 0);
    let at = vector_fields::size_at(s, n.next);
    let mut src = [0u8; 64];
    let part = vector_fields::bytes_at(s, at.next, &mut src);
    let len = part.len;
    match vlq_reader::get_bytes(&src[0..len], at.n, n.n) {
        Ok((start, end)) => {
            vector_line::accepted(to, name)?;
            vector_line::number(to, start as u64)?;
            vector_line::number(to, end as u64)?;
            vector_line::end(to)
        }
        Err(code) => vector_line::code_line(to, name, code),
    }
}

// ---- segments: both lists, the box spill count and the transaction spill count

fn segment<W: Write>(
    to: &mut W,
    txs: &[i64],
    n_txs: usize,
    boxes: &[i64],
    n_boxes: usize,
    box_count: i32,
    tx_count: i32,
) -> io::Result<()> {
    vector_fields::numbers(to, txs, n_txs)?;
    vector_fields::numbers(to, boxes, n_boxes)?;
    vector_line::signed_number(to, signed::i64_from_i32(box_count))?;
    vector_line::signed_number(to, signed::i64_from_i32(tx_count))?;
    vector_line::end(to)
}

fn loaded<W: Write>(
    to: &mut W,
    name: &[u8],
    l: Loaded,
    txs_read: &[i64],
    boxes_read: &[i64],
) -> io::Result<()> {
    match l {
        Loaded::Read {
            txs,
            boxes,
            box_segment_count,
            tx_segment_count,
            next: _,
        } => {
            vector_line::accepted(to, name)?;
            segment(
                to,
                txs_read,
                txs,
                boxes_read,
                boxes,
                box_segment_count,
                tx_segment_count,
            )
        }
        Loaded::Refused(code) => vector_line::code_line(to, name, code),
    }
}

fn read_row<W: Write>(
    to: &mut W,
    name: &[u8],
    row: &[u8],
    txs: &mut [i64],
    boxes: &mut [i64],
) -> io::Result<()> {
    let l = segment::read_persisted_segment(row, txs, boxes);
    loaded(to, name, l, txs, boxes)
}

// A row: the two lists that it is read to, and the row.
pub fn row<W: Write>(to: &mut W, name: &[u8], s: &[u8]) -> io::Result<()> {
    let mut txs = [0i64; SEGMENT_THRESHOLD];
    let mut boxes = [0i64; SEGMENT_THRESHOLD];
    let mut row = [0u8; 10255];
    let t = vector_fields::numbers_at(s, 0, &mut txs);
    let b = vector_fields::numbers_at(s, t.next, &mut boxes);
    let r = vector_fields::bytes_at(s, b.next, &mut row);
    let t_len = t.len;
    let b_len = b.len;
    let r_len = r.len;
    read_row(
        to,
        name,
        &row[0..r_len],
        &mut txs[0..t_len],
        &mut boxes[0..b_len],
    )
}

// ---- address records: the hash, whether there is a balance, its nanoErgs and tokens, and the segment

fn indexed_address<W: Write>(
    to: &mut W,
    name: &[u8],
    address: IndexedAddress,
    txs: &[i64],
    boxes: &[i64],
) -> io::Result<()> {
    let hash = address.hash;
    let balance = address.balance;
    let ids = balance.ids;
    let amounts = balance.amounts;
    let count = balance.count;
    vector_line::accepted(to, name)?;
    vector_fields::bytes(to, &hash, 32, 1)?;
    vector_line::flag(to, address.has_balance)?;
    vector_line::signed_number(to, balance.nanos)?;
    vector_fields::bytes(to, &ids, 32, count)?;
    vector_fields::numbers(to, &amounts, count)?;
    segment(
        to,
        txs,
        address.txs,
        boxes,
        address.boxes,
        address.box_segment_count,
        address.tx_segment_count,
    )
}

fn address_read<W: Write>(
    to: &mut W,
    name: &[u8],
    read: AddressRead,
    txs: &[i64],
    boxes: &[i64],
) -> io::Result<()> {
    let answer = read.answer;
    let address = read.address;
    match answer {
        Ok(()) => indexed_address(to, name, address, txs, boxes),
        Err(code) => vector_line::code_line(to, name, code),
    }
}

fn read_record<W: Write>(
    to: &mut W,
    name: &[u8],
    record: &[u8],
    txs: &mut [i64],
    boxes: &mut [i64],
) -> io::Result<()> {
    let read = address::read_indexed_address(record, txs, boxes);
    address_read(to, name, read, txs, boxes)
}

// An address record: the two lists that it is read to, and the record.
pub fn address<W: Write>(to: &mut W, name: &[u8], s: &[u8]) -> io::Result<()> {
    let mut txs = [0i64; SEGMENT_THRESHOLD];
    let mut boxes = [0i64; SEGMENT_THRESHOLD];
    let mut record = [0u8; 15676];
    let t = vector_fields::numbers_at(s, 0, &mut txs);
    let b = vector_fields::numbers_at(s, t.next, &mut boxes);
    let r = vector_fields::bytes_at(s, b.next, &mut record);
    let t_len = t.len;
    let b_len = b.len;
    let r_len = r.len;
    read_record(
        to,
        name,
        &record[0..r_len],
        &mut txs[0..t_len],
        &mut boxes[0..b_len],
    )
}

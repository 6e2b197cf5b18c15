// Undo entries that are read and written, a line each, and the drift rule.
ghost use Rattle.std.specs.Prelude.{◌≡◌, ◌+◌, ◌≤◌, length};

use refusal::Tolerated;
use std::io;
use std::io::Write;
use undo::entry::{Encoded, UndoEntry};

fn undo_entry<W: Write>(to: &mut W, name: &[u8], entry: UndoEntry) -> io::Result<()> {
    let header = entry.header;
    vector_line::accepted(to, name)?;
    vector_line::flag(to, entry.known)?;
    vector_fields::bytes(to, &header, 32, 1)?;
    vector_line::number(to, entry.txs)?;
    vector_line::number(to, entry.boxes)?;
    vector_line::end(to)
}

// Whether a header is known and which, the numbers of transactions and boxes.
pub fn read<W: Write>(to: &mut W, name: &[u8], s: &[u8]) -> io::Result<()> {
    let decoded = undo::entry::decode(s);
    let answer = decoded.answer;
    let entry = decoded.entry;
    match answer {
        Ok(()) => undo_entry(to, name, entry),
        Err(code) => vector_line::code_line(to, name, code),
    }
}

fn encode<W: Write>(to: &mut W, name: &[u8], entry: UndoEntry, out: &mut [u8]) -> io::Result<()> {
    match undo::entry::encode(entry, out) {
        Ok(end) => {
            vector_line::accepted(to, name)?;
            vector_fields::bytes(to, out, 1, end)?;
            vector_line::end(to)
        }
        Err(code) => vector_line::code_line(to, name, code),
    }
}

// The number in the eight bytes at a position, or 0 where they are cut.
fn eight_at(s: &[u8], at: usize) -> u64 {
    if at <= s.len() {
        if 8 <= s.len() - at {
            return big_endian::get_u64(s, at);
        }
    }
    0
}

// Writes an entry: whether a header is known, the header, the output, and 16 bytes of numbers.
pub fn write<W: Write>(to: &mut W, name: &[u8], s: &[u8]) -> io::Result<()> {
    let known = vector_fields::size_at(s, 0);
    let mut header = [0u8; 32];
    let id = vector_fields::bytes_at(s, known.next, &mut header);
    let mut out = [0u8; 64];
    let part = vector_fields::bytes_at(s, id.next, &mut out);
    let len = part.len;
    let first = part.next;
    let mut second = first;
    if first < s.len() {
        second = first + 8;
    }
    let entry = UndoEntry {
        known: known.n == 1,
        header,
        txs: eight_at(s, first),
        boxes: eight_at(s, second),
    };
    encode(to, name, entry, &mut out[0..len])
}

// The answer of a flip, a code, and what becomes of it: a flip, a skip, or the code.
pub fn drift<W: Write>(to: &mut W, name: &[u8], s: &[u8]) -> io::Result<()> {
    let mut answer = Ok(());
    if s.len() != 0 {
        if s[0] != 0 {
            answer = Err(s[0]);
        }
    }
    match refusal::tolerate_secondary_drift(answer) {
        Tolerated::Flipped => vector_line::code_line(to, name, 0),
        Tolerated::Skipped => {
            vector_line::accepted(to, name)?;
            vector_line::flag(to, true)?;
            vector_line::end(to)
        }
        Tolerated::Refused(code) => vector_line::code_line(to, name, code),
    }
}

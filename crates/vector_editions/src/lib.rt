// Rows turned from one edition into the other, a line each: the refusal code, or 0 and what was written, in hexadecimal.
#![tactic(auto)]

ghost use Rattle.std.specs.Prelude.{◌≤◌, length};

use index_types::{RowEdition, Wrote};
use std::io;
use std::io::Write;

fn show<W: Write>(to: &mut W, name: &[u8], wrote: Wrote, out: &[u8]) -> io::Result<()> {
    match wrote {
        Ok(next) => {
            vector_line::accepted(to, name)?;
            vector_fields::bytes(to, out, 1, next)?;
            vector_line::end(to)
        }
        Err(code) => vector_line::code_line(to, name, code),
    }
}

fn to_first<W: Write>(
    to: &mut W,
    name: &[u8],
    row: &[u8],
    parent: &[u8; 32],
    kind: u8,
    number: i32,
    out: &mut [u8],
) -> io::Result<()> {
    let wrote = row_converters::row_to_first(row, parent, kind, number, out);
    show(to, name, wrote, out)
}

fn to_second<W: Write>(
    to: &mut W,
    name: &[u8],
    row: &[u8],
    parent: &[u8; 32],
    kind: u8,
    number: i32,
    out: &mut [u8],
) -> io::Result<()> {
    let wrote = row_converters::row_to_second(row, parent, kind, number, out);
    show(to, name, wrote, out)
}

fn convert<W: Write>(
    to: &mut W,
    name: &[u8],
    edition: RowEdition,
    row: &[u8],
    parent: &[u8; 32],
    kind: u8,
    number: i32,
    out: &mut [u8],
) -> io::Result<()> {
    match edition {
        RowEdition::One => to_first(to, name, row, parent, kind, number, out),
        RowEdition::Two => to_second(to, name, row, parent, kind, number, out),
    }
}

// The edition that is asked for: the parent's byte, which its id has 32 times, the kind's byte, the spill number, the row and the output.
pub fn replay<W: Write>(to: &mut W, name: &[u8], edition: RowEdition, s: &[u8]) -> io::Result<()> {
    if s.len() < 2 {
        return vector_fields::cut(to);
    }
    let byte = s[0];
    let kind = s[1];
    let parent = [byte; 32];
    let mut row = [0u8; 10304];
    let mut out = [0u8; 10304];
    let number = vector_fields::count_at(s, 2);
    let r = vector_fields::bytes_at(s, number.next, &mut row);
    let o = vector_fields::bytes_at(s, r.next, &mut out);
    let r_len = r.len;
    let o_len = o.len;
    convert(
        to,
        name,
        edition,
        &row[0..r_len],
        &parent,
        kind,
        number.n,
        &mut out[0..o_len],
    )
}

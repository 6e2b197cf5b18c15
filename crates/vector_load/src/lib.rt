// Loads, a line each: how many bytes were written, the generator after them, and the output.
#![tactic(auto)]

use load::{Generated, Source};
use std::io;
use std::io::Write;

fn show<W: Write>(to: &mut W, name: &[u8], made: Generated, out: &[u8]) -> io::Result<()> {
    match made {
        Ok((n, after)) => {
            vector_line::accepted(to, name)?;
            vector_line::number(to, n as u64)?;
            vector_line::number(to, after.state)?;
            vector_line::number(to, after.boxes)?;
            vector_line::number(to, after.txs)?;
            vector_fields::bytes(to, out, 1, out.len())?;
            vector_line::end(to)
        }
        Err(code) => vector_line::code_line(to, name, code),
    }
}

fn start<W: Write>(
    to: &mut W,
    name: &[u8],
    state: u64,
    count: u64,
    out: &mut [u8],
) -> io::Result<()> {
    let made = load::generate_load(state, count, out);
    show(to, name, made, out)
}

fn further<W: Write>(
    to: &mut W,
    name: &[u8],
    source: Source,
    count: u64,
    out: &mut [u8],
) -> io::Result<()> {
    let made = load::go_on(source, count, out);
    show(to, name, made, out)
}

// A load from a state: the output, the state and how many calls.
pub fn generate<W: Write>(to: &mut W, name: &[u8], s: &[u8]) -> io::Result<()> {
    let mut out = [0u8; 256];
    let part = vector_fields::bytes_at(s, 0, &mut out);
    let len = part.len;
    let state = vector_fields::size_at(s, part.next);
    let count = vector_fields::size_at(s, state.next);
    start(to, name, state.n as u64, count.n as u64, &mut out[0..len])
}

// A load that goes on: the output, the state, how many calls, and the counts of boxes and transactions.
pub fn go_on<W: Write>(to: &mut W, name: &[u8], s: &[u8]) -> io::Result<()> {
    let mut out = [0u8; 256];
    let part = vector_fields::bytes_at(s, 0, &mut out);
    let len = part.len;
    let state = vector_fields::size_at(s, part.next);
    let count = vector_fields::size_at(s, state.next);
    let boxes = vector_fields::size_at(s, count.next);
    let txs = vector_fields::size_at(s, boxes.next);
    let source = Source {
        state: state.n as u64,
        boxes: boxes.n as u64,
        txs: txs.n as u64,
    };
    further(to, name, source, count.n as u64, &mut out[0..len])
}

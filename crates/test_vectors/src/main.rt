// Replays test vectors: takes records from standard input and prints a line for each, its name and the answer.
// stdin and stdout are made by compare/replayed.py: from compare/sample.txt, whose answers the reference Rust gave, and from sample/vectors.txt,
// whose answers were written from document 01 and from independent outputs. A line that differs is an answer in which this index differs from them.
// `vector_fields` says what a record is; the functions that are called here say which fields each kind has, and what stands on its line.
#![tactic(auto)]

ghost use Rattle.std.specs.Prelude.{◌<◌, ◌≤◌, length, IfOk};

use index_types::RowEdition;
use segment_id::Kind;
use std::io;
use std::io::{Read, Write};
use vector_balances::Change;
use vector_calls::Call;
use vector_codecs::{keys, prunes, reads, undos, writes};

// Numbers, rows, address records and undo entries.
fn codec<W: Write>(to: &mut W, kind: u8, name: &[u8], s: &[u8]) -> io::Result<()> {
    match kind {
        0 => reads::long(to, name, s),
        1 => reads::int(to, name, s),
        2 => reads::first(to, name, s),
        3 => reads::span(to, name, s),
        4 => reads::row(to, name, s),
        5 => reads::address(to, name, s),
        6 => undos::read(to, name, s),
        7 => writes::long(to, name, s),
        8 => writes::int(to, name, s),
        9 => writes::row(to, name, s),
        10 => writes::address(to, name, s),
        11 => undos::write(to, name, s),
        12 => prunes::pruning(to, name, s),
        13 => prunes::milli_ergs(to, name, s),
        14 => undos::drift(to, name, s),
        15 => keys::digest(to, name, s),
        16 => keys::digest_512(to, name, s),
        17 => keys::row_key(to, name, Kind::Box, s),
        18 => keys::row_key(to, name, Kind::Tx, s),
        _ => vector_line::code_line(to, b"unknown kind", refusal::UNKNOWN_CALL),
    }
}

// Balances, calls of the buffer, histories, loads, rows turned into the other edition and flat lists.
fn replay<W: Write>(to: &mut W, kind: u8, name: &[u8], s: &[u8]) -> io::Result<()> {
    match kind {
        32 => vector_balances::replay(to, name, Change::Add, s),
        33 => vector_balances::replay(to, name, Change::Subtract, s),
        34 => vector_balances::replay(to, name, Change::AddInPlace, s),
        35 => vector_balances::replay(to, name, Change::SubtractInPlace, s),
        48 => vector_calls::replay(to, name, Call::AppendBox, s),
        49 => vector_calls::replay(to, name, Call::AppendTx, s),
        50 => vector_calls::replay(to, name, Call::PopBox, s),
        51 => vector_calls::replay(to, name, Call::PopTx, s),
        52 => vector_calls::replay(to, name, Call::Spend, s),
        53 => vector_calls::replay(to, name, Call::Unspend, s),
        54 => vector_calls::replay(to, name, Call::Tally, s),
        55 => vector_calls::replay(to, name, Call::Flush, s),
        56 => vector_calls::replay(to, name, Call::Lists, s),
        57 => vector_calls::replay(to, name, Call::Locate, s),
        58 => vector_calls::replay(to, name, Call::Page, s),
        59 => vector_calls::replay(to, name, Call::Summarize, s),
        60 => vector_calls::replay(to, name, Call::AppendSummary, s),
        61 => vector_calls::replay(to, name, Call::PopSummary, s),
        62 => vector_calls::replay(to, name, Call::SpendSummary, s),
        63 => vector_calls::replay(to, name, Call::UnspendSummary, s),
        69 => vector_calls::replay(to, name, Call::TallySummary, s),
        64 => vector_runs::run(to, name, s),
        65 => vector_load::generate(to, name, s),
        66 => vector_load::go_on(to, name, s),
        67 => vector_editions::replay(to, name, RowEdition::Two, s),
        68 => vector_editions::replay(to, name, RowEdition::One, s),
        72 => vector_flat::replay(to, name, 0, s),
        73 => vector_flat::replay(to, name, 1, s),
        74 => vector_flat::replay(to, name, 2, s),
        75 => vector_flat::replay(to, name, 3, s),
        _ => codec(to, kind, name, s),
    }
}

// A record's kind, and its bytes: the length of the name, the name, and the fields.
fn named<W: Write>(to: &mut W, kind: u8, s: &[u8]) -> io::Result<()> {
    if s.len() == 0 {
        return vector_fields::cut(to);
    }
    let end = 1 + vector_fields::as_length(s[0]);
    if s.len() < end {
        return vector_fields::cut(to);
    }
    replay(to, kind, &s[1..end], &s[end..])
}

// The record at a position: the position behind it, or the end where the record is cut.
fn record<W: Write>(to: &mut W, s: &[u8], at: usize) -> io::Result<usize>
    requires { at < length s.now }
    ensures { IfOk result (λ next. at < next) }
{
    let end = vector_fields::record_end(s, at);
    if end - at < 3 {
        vector_fields::cut(to)?;
        return Ok(s.len());
    }
    let start = at + 3;
    named(to, s[at], &s[start..end])?;
    Ok(end)
}

fn records<W: Write>(to: &mut W, s: &[u8]) -> io::Result<()> {
    let mut at = 0;
    while at < s.len() {
        at = record(to, s, at)?;
    }
    Ok(())
}

// Reads until the buffer is full or the input ends: how many bytes were read.
fn read_full<R: Read>(from: &mut R, buf: &mut [u8]) -> io::Result<usize>
    ensures { IfOk result (λ n. n ≤ length buf.old) }
{
    let mut have = 0;
    while have < buf.len() {
        let n = from.read(&mut buf[have..])?;
        if n == 0 {
            return Ok(have);
        }
        have += n;
    }
    Ok(have)
}

fn main(rt: HostRuntime) -> io::Result<()> {
    let mut input = [0u8; 393216];
    let n = read_full(&mut rt.stdin(), &mut input)?;
    records(&mut rt.stdout(), &input[..n])
}

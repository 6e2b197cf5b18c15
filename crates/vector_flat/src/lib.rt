// Calls on a flat list, a line each: how many numbers stand in it, the number that was popped, and the list up to its third place behind them.
#![tactic(auto)]

use index_types::{BoxNumber, FlatChanged, FlatPopped};
use std::io;
use std::io::Write;

// The places of the list that a record may borrow: four more than it needs.
const PLACES: usize = 4100;

fn shown<W: Write>(to: &mut W, list: &[i64], count: usize) -> io::Result<()> {
    vector_fields::numbers(to, list, if count < 4000 { count + 3 } else { 0 })?;
    vector_line::end(to)
}

fn changed_line<W: Write>(
    to: &mut W,
    name: &[u8],
    changed: FlatChanged,
    list: &[i64],
) -> io::Result<()> {
    match changed {
        Ok(count) => {
            vector_line::accepted(to, name)?;
            vector_line::number(to, count as u64)?;
            shown(to, list, count)
        }
        Err(code) => vector_line::code_line(to, name, code),
    }
}

fn popped_line<W: Write>(
    to: &mut W,
    name: &[u8],
    popped: FlatPopped,
    list: &[i64],
) -> io::Result<()> {
    match popped {
        Ok((last, count)) => {
            vector_line::accepted(to, name)?;
            vector_line::signed_number(to, last.0)?;
            vector_line::number(to, count as u64)?;
            shown(to, list, count)
        }
        Err(code) => vector_line::code_line(to, name, code),
    }
}

fn append<W: Write>(
    to: &mut W,
    name: &[u8],
    count: usize,
    number: i64,
    list: &mut [i64],
) -> io::Result<()> {
    let changed = flat_list::append_box(count, list, BoxNumber(number));
    changed_line(to, name, changed, list)
}

fn spend<W: Write>(
    to: &mut W,
    name: &[u8],
    count: usize,
    number: i64,
    list: &mut [i64],
) -> io::Result<()> {
    let changed = flat_list::spend_box(count, list, BoxNumber(number));
    changed_line(to, name, changed, list)
}

fn unspend<W: Write>(
    to: &mut W,
    name: &[u8],
    count: usize,
    number: i64,
    list: &mut [i64],
) -> io::Result<()> {
    let changed = flat_list::unspend_box(count, list, BoxNumber(number));
    changed_line(to, name, changed, list)
}

fn pop<W: Write>(to: &mut W, name: &[u8], count: usize, list: &mut [i64]) -> io::Result<()> {
    let popped = flat_list::pop_box(count, list);
    popped_line(to, name, popped, list)
}

fn called<W: Write>(
    to: &mut W,
    name: &[u8],
    call: u8,
    count: usize,
    number: i64,
    list: &mut [i64],
) -> io::Result<()> {
    match call {
        0 => append(to, name, count, number, list),
        1 => spend(to, name, count, number, list),
        2 => unspend(to, name, count, number, list),
        _ => pop(to, name, count, list),
    }
}

// A call: which one (0 append, 1 spend, 2 unspend, 3 pop), the list, how many numbers of it count, and the number.
pub fn replay<W: Write>(to: &mut W, name: &[u8], call: u8, s: &[u8]) -> io::Result<()> {
    let mut list = [0i64; PLACES];
    let part = vector_fields::numbers_at(s, 0, &mut list);
    let len = part.len;
    let count = vector_fields::size_at(s, part.next);
    let number = vector_fields::number_at(s, count.next);
    called(to, name, call, count.n, number.n, &mut list[0..len])
}

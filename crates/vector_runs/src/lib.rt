// Histories, a line each: how many calls were made, the answer of each, which is a code and the number of an accepted
// pop, and the state of both parents behind them.
#![tactic(auto)]

ghost use Rattle.std.specs.Prelude.{◌<◌};

use call_steps::{AMOUNTS_AT, NANOS_AT, PARENT_NUMBERS};
use runner_start::{
    ALL_LENGTHS, ALL_NUMBERS, ALL_SPILLS, DELETED_BYTES, STAGED_BYTES, TABLE_BYTES,
};
use std::io;
use std::io::Write;

fn answer<W: Write>(to: &mut W, code: u8, popped: bool, number: i64) -> io::Result<()> {
    vector_line::code(to, code)?;
    if popped {
        vector_line::signed_number(to, number)?;
    }
    Ok(())
}

// The answers of n calls, at most 1,024.
fn answers<W: Write>(
    to: &mut W,
    codes: &[u8; 2048],
    numbers: &[i64; AMOUNTS_AT],
    n: usize,
) -> io::Result<()> {
    vector_line::number(to, n as u64)?;
    for i in 0..1024 {
        if i < n {
            let code = i * 2;
            let flag = code + 1;
            answer(to, codes[code], codes[flag] == 1, numbers[i])?;
        }
    }
    Ok(())
}

fn head<W: Write>(to: &mut W, len: usize, spills: i32) -> io::Result<()> {
    vector_line::number(to, len as u64)?;
    vector_line::signed_number(to, signed::i64_from_i32(spills))
}

// A parent's heads, boxes first, with their spill counts, its nanoErgs and its token count.
fn parent<W: Write>(
    to: &mut W,
    p: usize,
    numbers: &[i64; ALL_NUMBERS],
    lengths: &[usize; ALL_LENGTHS],
    spills: &[i32; ALL_SPILLS],
) -> io::Result<()>
    requires { p < 2 }
{
    head(to, lengths[p * 3], spills[p * 2])?;
    head(to, lengths[p * 3 + 1], spills[p * 2 + 1])?;
    vector_line::signed_number(to, numbers[p * PARENT_NUMBERS + NANOS_AT])?;
    vector_line::number(to, lengths[p * 3 + 2] as u64)
}

// Makes the calls of a history on two parents, from the empty state of the call runner.
pub fn run<W: Write>(to: &mut W, name: &[u8], s: &[u8]) -> io::Result<()> {
    let mut ids = runner_start::parent_ids();
    let mut numbers = [0i64; ALL_NUMBERS];
    let mut lengths = [0usize; ALL_LENGTHS];
    let mut spills = [0i32; ALL_SPILLS];
    let mut staged = [0u8; STAGED_BYTES];
    let mut table = [0u8; TABLE_BYTES];
    let mut deleted = [0u8; DELETED_BYTES];
    let mut codes = [0u8; 2048];
    let mut popped = [0i64; AMOUNTS_AT];
    let counts = runner_start::empty_lists();
    let p = runner::run_calls(
        s,
        2,
        &mut ids,
        &mut numbers,
        &mut lengths,
        &mut spills,
        &mut staged,
        &mut table,
        &mut deleted,
        &mut codes,
        &mut popped,
        counts,
    );
    let made = p.made;
    vector_line::start(to, name)?;
    answers(to, &codes, &popped, made)?;
    parent(to, 0, &numbers, &lengths, &spills)?;
    parent(to, 1, &numbers, &lengths, &spills)?;
    vector_line::end(to)
}

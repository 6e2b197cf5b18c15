// The lines for each kind of answer.
use index_types::{
    Appended, Flipped, Flushed, HeadCounts, ListCounts, Paged, PoppedBox, PoppedTx, Summarized,
    Tallied,
};
use spills::Located;
use std::io;
use std::io::Write;

// The length of the head and its spill count.
fn head_counts<W: Write>(to: &mut W, counts: HeadCounts) -> io::Result<()> {
    vector_line::number(to, counts.len as u64)?;
    vector_line::signed_number(to, signed::i64_from_i32(counts.spills))
}

// The digest of a list's bytes.
fn digest<W: Write>(to: &mut W, list: &[u8]) -> io::Result<()> {
    let d = blake2b::blake2b256(list);
    vector_fields::bytes(to, &d, 32, 1)
}

// The head's counts and how many rows are staged.
pub fn appended<W: Write>(
    to: &mut W,
    name: &[u8],
    answer: Appended,
    head: &[i64],
    staged: &[u8],
) -> io::Result<()> {
    match answer {
        Ok((counts, rows)) => {
            vector_line::accepted(to, name)?;
            head_counts(to, counts)?;
            vector_line::number(to, rows.count as u64)?;
            vector_fields::numbers(to, head, counts.len)?;
            digest(to, staged)?;
            vector_line::end(to)
        }
        Err(code) => vector_line::code_line(to, name, code),
    }
}

// The number, the head's counts, and how many rows are staged and deleted.
fn popped<W: Write>(
    to: &mut W,
    name: &[u8],
    number: i64,
    counts: HeadCounts,
    rows: ListCounts,
    keys: ListCounts,
    head: &[i64],
    staged: &[u8],
    deleted: &[u8],
) -> io::Result<()> {
    vector_line::accepted(to, name)?;
    vector_line::signed_number(to, number)?;
    head_counts(to, counts)?;
    vector_line::number(to, rows.count as u64)?;
    vector_line::number(to, keys.count as u64)?;
    vector_fields::numbers(to, head, counts.len)?;
    digest(to, staged)?;
    digest(to, deleted)?;
    vector_line::end(to)
}

// The answer of a pop of a box.
pub fn popped_box<W: Write>(
    to: &mut W,
    name: &[u8],
    answer: PoppedBox,
    head: &[i64],
    staged: &[u8],
    deleted: &[u8],
) -> io::Result<()> {
    match answer {
        Ok((number, counts, rows, keys)) => {
            popped(
                to, name, number.0, counts, rows, keys, head, staged, deleted,
            )
        }
        Err(code) => vector_line::code_line(to, name, code),
    }
}

// The answer of a pop of a transaction.
pub fn popped_tx<W: Write>(
    to: &mut W,
    name: &[u8],
    answer: PoppedTx,
    head: &[i64],
    staged: &[u8],
    deleted: &[u8],
) -> io::Result<()> {
    match answer {
        Ok((number, counts, rows, keys)) => {
            popped(
                to, name, number.0, counts, rows, keys, head, staged, deleted,
            )
        }
        Err(code) => vector_line::code_line(to, name, code),
    }
}

// How many rows are staged.
pub fn flipped<W: Write>(
    to: &mut W,
    name: &[u8],
    answer: Flipped,
    head: &[i64],
    len: usize,
    staged: &[u8],
) -> io::Result<()> {
    match answer {
        Ok(rows) => {
            vector_line::accepted(to, name)?;
            vector_line::number(to, rows.count as u64)?;
            vector_fields::numbers(to, head, len)?;
            digest(to, staged)?;
            vector_line::end(to)
        }
        Err(code) => vector_line::code_line(to, name, code),
    }
}

// How many rows are in the table, staged and deleted.
pub fn flushed<W: Write>(
    to: &mut W,
    name: &[u8],
    answer: Flushed,
    staged: &[u8],
    table: &[u8],
    deleted: &[u8],
) -> io::Result<()> {
    match answer {
        Ok((shelf, rows, keys)) => {
            vector_line::accepted(to, name)?;
            vector_line::number(to, shelf.count as u64)?;
            vector_line::number(to, rows.count as u64)?;
            vector_line::number(to, keys.count as u64)?;
            digest(to, staged)?;
            digest(to, table)?;
            digest(to, deleted)?;
            vector_line::end(to)
        }
        Err(code) => vector_line::code_line(to, name, code),
    }
}

// How many entries are unspent, spent and unknown.
pub fn tallied<W: Write>(to: &mut W, name: &[u8], answer: Tallied) -> io::Result<()> {
    match answer {
        Ok(tally) => {
            vector_line::accepted(to, name)?;
            vector_line::number(to, tally.unspent as u64)?;
            vector_line::number(to, tally.spent as u64)?;
            vector_line::number(to, tally.unknown as u64)?;
            vector_line::end(to)
        }
        Err(code) => vector_line::code_line(to, name, code),
    }
}

// How many numbers stand in a page, and all that was borrowed for it.
pub fn paged<W: Write>(to: &mut W, name: &[u8], answer: Paged, page: &[i64]) -> io::Result<()> {
    match answer {
        Ok(count) => {
            vector_line::accepted(to, name)?;
            vector_line::number(to, count as u64)?;
            vector_fields::numbers(to, page, page.len())?;
            vector_line::end(to)
        }
        Err(code) => vector_line::code_line(to, name, code),
    }
}

// Whether the lists pass refusal 25.
pub fn fit<W: Write>(to: &mut W, name: &[u8], fits: bool) -> io::Result<()> {
    if fits {
        vector_line::code_line(to, name, 0)
    } else {
        vector_line::code_line(to, name, refusal::BUFFERS)
    }
}

// Where a row stands: in staging (1) or in the table (2), and its place.
pub fn located<W: Write>(to: &mut W, name: &[u8], place: Located) -> io::Result<()> {
    match place {
        Located::Staged(i) => {
            vector_line::accepted(to, name)?;
            vector_line::number(to, 1)?;
            vector_line::number(to, i as u64)?;
            vector_line::end(to)
        }
        Located::Table(i) => {
            vector_line::accepted(to, name)?;
            vector_line::number(to, 2)?;
            vector_line::number(to, i as u64)?;
            vector_line::end(to)
        }
        Located::Missing => vector_line::code_line(to, name, refusal::ROW_MISSING),
        Located::Refused(code) => vector_line::code_line(to, name, code),
    }
}

// The answer of a summary made afresh.
pub fn summarized<W: Write>(to: &mut W, name: &[u8], answer: Summarized) -> io::Result<()> {
    match answer {
        Ok(()) => vector_line::code_line(to, name, 0),
        Err(code) => vector_line::code_line(to, name, code),
    }
}

// All numbers of a summary.
pub fn summary<W: Write>(to: &mut W, name: &[u8], numbers: &[u64]) -> io::Result<()> {
    vector_line::accepted(to, name)?;
    for i in 0..numbers.len() {
        vector_line::number(to, numbers[i])?;
    }
    vector_line::end(to)
}

// The calls with a summary: how many lines it has and the list of its numbers stand behind the other lists. A second line shows all numbers of the list.
use super::{Call, Given, show};
use index_types::BoxNumber;
use std::io;
use std::io::Write;

// The numbers that a record may borrow for a summary.
const NUMBERS: usize = 64;

// A number of 64 bits without a sign; those from 2^63 on stand in a record as negative ones.
fn unsigned(x: i64) -> u64 {
    let m = signed::magnitude(x);
    if signed::is_negative(x) {
        if 0 < m {
            return 18446744073709551615 - (m - 1);
        }
    }
    m
}

fn summarize<'a, W: Write>(
    to: &mut W,
    name: &[u8],
    parent: &[u8; 32],
    given: Given,
    head: &[i64],
    staged: &'a [u8],
    table: &'a [u8],
    lines: usize,
    numbers: &mut [u64],
) -> io::Result<()> {
    let edition = given.edition;
    let counts = given.counts;
    let staged_counts = given.staged;
    let table_counts = given.table;
    let answer = summary::summarize_boxes(
        edition,
        parent,
        counts,
        head,
        staged_counts,
        staged,
        table_counts,
        table,
        lines,
        numbers,
    );
    show::summarized(to, name, answer)?;
    show::summary(to, name, numbers)
}

fn append<W: Write>(
    to: &mut W,
    name: &[u8],
    parent: &[u8; 32],
    given: Given,
    head: &mut [i64],
    staged: &mut [u8],
    lines: usize,
    numbers: &mut [u64],
) -> io::Result<()> {
    let edition = given.edition;
    let counts = given.counts;
    let number = BoxNumber(given.number);
    let staged_counts = given.staged;
    let answer = summary::append_box_entry_with_summary(
        edition,
        parent,
        counts,
        head,
        number,
        staged_counts,
        staged,
        lines,
        numbers,
    );
    show::appended(to, name, answer, head, staged)?;
    show::summary(to, name, numbers)
}

fn pop<W: Write>(
    to: &mut W,
    name: &[u8],
    parent: &[u8; 32],
    given: Given,
    head: &mut [i64],
    staged: &mut [u8],
    table: &[u8],
    deleted: &mut [u8],
    lines: usize,
    numbers: &mut [u64],
) -> io::Result<()> {
    let edition = given.edition;
    let counts = given.counts;
    let staged_counts = given.staged;
    let table_counts = given.table;
    let deleted_counts = given.deleted;
    let answer = summary::pop_box_entry_with_summary(
        edition,
        parent,
        counts,
        head,
        staged_counts,
        staged,
        table_counts,
        table,
        deleted_counts,
        deleted,
        lines,
        numbers,
    );
    show::popped_box(to, name, answer, head, staged, deleted)?;
    show::summary(to, name, numbers)
}

fn spend<W: Write>(
    to: &mut W,
    name: &[u8],
    parent: &[u8; 32],
    given: Given,
    head: &mut [i64],
    staged: &mut [u8],
    table: &[u8],
    lines: usize,
    numbers: &mut [u64],
) -> io::Result<()> {
    let edition = given.edition;
    let counts = given.counts;
    let target = BoxNumber(given.number);
    let staged_counts = given.staged;
    let table_counts = given.table;
    let answer = summary::flip_box_segment_entry_with_summary(
        edition,
        parent,
        counts,
        head,
        target,
        staged_counts,
        staged,
        table_counts,
        table,
        lines,
        numbers,
    );
    show::flipped(to, name, answer, head, counts.len, staged)?;
    show::summary(to, name, numbers)
}

fn unspend<W: Write>(
    to: &mut W,
    name: &[u8],
    parent: &[u8; 32],
    given: Given,
    head: &mut [i64],
    staged: &mut [u8],
    table: &[u8],
    lines: usize,
    numbers: &mut [u64],
) -> io::Result<()> {
    let edition = given.edition;
    let counts = given.counts;
    let target = BoxNumber(given.number);
    let staged_counts = given.staged;
    let table_counts = given.table;
    let answer = summary::unflip_box_segment_entry_with_summary(
        edition,
        parent,
        counts,
        head,
        target,
        staged_counts,
        staged,
        table_counts,
        table,
        lines,
        numbers,
    );
    show::flipped(to, name, answer, head, counts.len, staged)?;
    show::summary(to, name, numbers)
}

fn tally<W: Write>(
    to: &mut W,
    name: &[u8],
    given: Given,
    head: &[i64],
    lines: usize,
    numbers: &[u64],
) -> io::Result<()> {
    let answer = summary::tally_with_summary(given.counts, head, lines, numbers);
    show::tallied(to, name, answer)?;
    show::summary(to, name, numbers)
}

fn called<W: Write>(
    to: &mut W,
    name: &[u8],
    call: Call,
    parent: &[u8; 32],
    given: Given,
    head: &mut [i64],
    staged: &mut [u8],
    table: &[u8],
    deleted: &mut [u8],
    lines: usize,
    numbers: &mut [u64],
) -> io::Result<()> {
    match call {
        Call::Summarize => summarize(to, name, parent, given, head, staged, table, lines, numbers),
        Call::AppendSummary => append(to, name, parent, given, head, staged, lines, numbers),
        Call::PopSummary => pop(
            to, name, parent, given, head, staged, table, deleted, lines, numbers,
        ),
        Call::SpendSummary => spend(to, name, parent, given, head, staged, table, lines, numbers),
        Call::UnspendSummary => unspend(
            to, name, parent, given, head, staged, table, lines, numbers,
        ),
        _ => tally(to, name, given, head, lines, numbers),
    }
}

// A number of a list without its sign, 0 behind its end.
fn unsigned_at(read: &[i64], i: usize) -> u64 {
    if i < read.len() {
        return unsigned(read[i]);
    }
    0
}

fn fill(read: &[i64], numbers: &mut [u64]) {
    for i in 0..numbers.len() {
        numbers[i] = unsigned_at(read, i);
    }
}

// Reads the summary and makes the call.
pub fn make<W: Write>(
    to: &mut W,
    name: &[u8],
    call: Call,
    parent: &[u8; 32],
    given: Given,
    head: &mut [i64],
    staged: &mut [u8],
    table: &[u8],
    deleted: &mut [u8],
    s: &[u8],
    at: usize,
) -> io::Result<()> {
    let mut read = [0i64; NUMBERS];
    let mut numbers = [0u64; NUMBERS];
    let lines = vector_fields::size_at(s, at);
    let part = vector_fields::numbers_at(s, lines.next, &mut read);
    let len = part.len;
    fill(&read, &mut numbers);
    called(
        to,
        name,
        call,
        parent,
        given,
        head,
        staged,
        table,
        deleted,
        lines.n,
        &mut numbers[0..len],
    )
}

// The calls that change a head or lists of spills.
use super::{Given, show};
use index_types::{BoxNumber, TxNumber};
use std::io;
use std::io::Write;

// Replays an append of a box.
pub fn append_box<W: Write>(
    to: &mut W,
    name: &[u8],
    parent: &[u8; 32],
    given: Given,
    head: &mut [i64],
    staged: &mut [u8],
) -> io::Result<()> {
    let edition = given.edition;
    let counts = given.counts;
    let number = BoxNumber(given.number);
    let staged_counts = given.staged;
    let answer = segment_buffer::append_box_entry(
        edition,
        parent,
        counts,
        head,
        number,
        staged_counts,
        staged,
    );
    show::appended(to, name, answer, head, staged)
}

// Replays an append of a transaction.
pub fn append_tx<W: Write>(
    to: &mut W,
    name: &[u8],
    parent: &[u8; 32],
    given: Given,
    head: &mut [i64],
    staged: &mut [u8],
) -> io::Result<()> {
    let edition = given.edition;
    let counts = given.counts;
    let number = TxNumber(given.number);
    let staged_counts = given.staged;
    let answer = segment_buffer::append_tx_entry(
        edition,
        parent,
        counts,
        head,
        number,
        staged_counts,
        staged,
    );
    show::appended(to, name, answer, head, staged)
}

// Replays a pop of a box.
pub fn pop_box<W: Write>(
    to: &mut W,
    name: &[u8],
    parent: &[u8; 32],
    given: Given,
    head: &mut [i64],
    staged: &mut [u8],
    table: &[u8],
    deleted: &mut [u8],
) -> io::Result<()> {
    let edition = given.edition;
    let counts = given.counts;
    let staged_counts = given.staged;
    let table_counts = given.table;
    let deleted_counts = given.deleted;
    let answer = segment_buffer::pop_box_entry(
        edition,
        parent,
        counts,
        head,
        staged_counts,
        staged,
        table_counts,
        table,
        deleted_counts,
        deleted,
    );
    show::popped_box(to, name, answer, head, staged, deleted)
}

// Replays a pop of a transaction.
pub fn pop_tx<W: Write>(
    to: &mut W,
    name: &[u8],
    parent: &[u8; 32],
    given: Given,
    head: &mut [i64],
    staged: &mut [u8],
    table: &[u8],
    deleted: &mut [u8],
) -> io::Result<()> {
    let edition = given.edition;
    let counts = given.counts;
    let staged_counts = given.staged;
    let table_counts = given.table;
    let deleted_counts = given.deleted;
    let answer = segment_buffer::pop_tx_entry(
        edition,
        parent,
        counts,
        head,
        staged_counts,
        staged,
        table_counts,
        table,
        deleted_counts,
        deleted,
    );
    show::popped_tx(to, name, answer, head, staged, deleted)
}

// Replays a spend.
pub fn spend<W: Write>(
    to: &mut W,
    name: &[u8],
    parent: &[u8; 32],
    given: Given,
    head: &mut [i64],
    staged: &mut [u8],
    table: &[u8],
) -> io::Result<()> {
    let edition = given.edition;
    let counts = given.counts;
    let target = BoxNumber(given.number);
    let staged_counts = given.staged;
    let table_counts = given.table;
    let answer = segment_buffer::flip_box_segment_entry(
        edition,
        parent,
        counts,
        head,
        target,
        staged_counts,
        staged,
        table_counts,
        table,
    );
    show::flipped(to, name, answer, head, counts.len, staged)
}

// Replays an unspend.
pub fn unspend<W: Write>(
    to: &mut W,
    name: &[u8],
    parent: &[u8; 32],
    given: Given,
    head: &mut [i64],
    staged: &mut [u8],
    table: &[u8],
) -> io::Result<()> {
    let edition = given.edition;
    let counts = given.counts;
    let target = BoxNumber(given.number);
    let staged_counts = given.staged;
    let table_counts = given.table;
    let answer = segment_buffer::unflip_box_segment_entry(
        edition,
        parent,
        counts,
        head,
        target,
        staged_counts,
        staged,
        table_counts,
        table,
    );
    show::flipped(to, name, answer, head, counts.len, staged)
}

// Replays a flush.
pub fn flush<W: Write>(
    to: &mut W,
    name: &[u8],
    given: Given,
    staged: &mut [u8],
    table: &mut [u8],
    deleted: &mut [u8],
) -> io::Result<()> {
    let edition = given.edition;
    let staged_counts = given.staged;
    let table_counts = given.table;
    let deleted_counts = given.deleted;
    let answer = segment_buffer::flush_staged_spills(
        edition,
        staged_counts,
        staged,
        table_counts,
        table,
        deleted_counts,
        deleted,
    );
    show::flushed(to, name, answer, staged, table, deleted)
}

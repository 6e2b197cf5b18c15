// One call of the segment buffer over the buffers of a record, a line each: the refusal code, or 0, what the call gave, and what it changed: the
// numbers of the head, and of each list that the call may change the digest of all its bytes.
#![tactic(auto)]

mod asks;
mod changes;
mod show;
mod summaries;

ghost use Rattle.std.specs.Prelude.{◌≡◌, ◌≤◌, length};

use index_types::{HeadCounts, ListCounts, RowEdition, SEGMENT_THRESHOLD};
use std::io;
use std::io::Write;

#[derive(Clone, Copy)]
pub enum Call {
    AppendBox,
    AppendTx,
    PopBox,
    PopTx,
    Spend,
    Unspend,
    Tally,
    Flush,
    Lists,
    Locate,
    Page,
    Summarize,
    AppendSummary,
    PopSummary,
    SpendSummary,
    UnspendSummary,
    TallySummary,
}

// The edition of the rows, the counts of a call's buffers, and its number.
#[derive(Clone, Copy)]
pub struct Given {
    pub edition: RowEdition,
    pub counts: HeadCounts,
    pub number: i64,
    pub staged: ListCounts,
    pub table: ListCounts,
    pub deleted: ListCounts,
}

// A list's counts, how many of its bytes are borrowed, and the position behind it.
#[derive(Clone, Copy)]
struct List {
    counts: ListCounts,
    len: usize,
    next: usize,
}

// The count, the capacity and the bytes.
fn list_at(s: &[u8], at: usize, out: &mut [u8]) -> List
    ensures { result.len ≤ length out.old }
{
    let count = vector_fields::size_at(s, at);
    let capacity = vector_fields::size_at(s, count.next);
    let part = vector_fields::bytes_at(s, capacity.next, out);
    List {
        counts: ListCounts {
            count: count.n,
            capacity: capacity.n,
        },
        len: part.len,
        next: part.next,
    }
}

fn make<W: Write>(
    to: &mut W,
    name: &[u8],
    call: Call,
    parent: &[u8; 32],
    given: Given,
    head: &mut [i64],
    staged: &mut [u8],
    table: &mut [u8],
    deleted: &mut [u8],
    s: &[u8],
    at: usize,
) -> io::Result<()> {
    match call {
        Call::AppendBox => changes::append_box(to, name, parent, given, head, staged),
        Call::AppendTx => changes::append_tx(to, name, parent, given, head, staged),
        Call::PopBox => changes::pop_box(to, name, parent, given, head, staged, table, deleted),
        Call::PopTx => changes::pop_tx(to, name, parent, given, head, staged, table, deleted),
        Call::Spend => changes::spend(to, name, parent, given, head, staged, table),
        Call::Unspend => changes::unspend(to, name, parent, given, head, staged, table),
        Call::Flush => changes::flush(to, name, given, staged, table, deleted),
        Call::Tally => asks::ask(
            to, name, call, parent, given, head, staged, table, deleted, s, at,
        ),
        Call::Lists => asks::ask(
            to, name, call, parent, given, head, staged, table, deleted, s, at,
        ),
        Call::Locate => asks::ask(
            to, name, call, parent, given, head, staged, table, deleted, s, at,
        ),
        Call::Page => asks::ask(
            to, name, call, parent, given, head, staged, table, deleted, s, at,
        ),
        _ => summaries::make(
            to, name, call, parent, given, head, staged, table, deleted, s, at,
        ),
    }
}

// How many numbers of the head count and its spill count, the number, the staged spills, the table, the deleted spills and, for a page and the calls with a
// summary, what these read.
fn with_head<W: Write>(
    to: &mut W,
    name: &[u8],
    call: Call,
    edition: RowEdition,
    parent: &[u8; 32],
    s: &[u8],
    at: usize,
    head: &mut [i64],
) -> io::Result<()> {
    let mut staged = [0u8; 20652];
    let mut table = [0u8; 20652];
    let mut deleted = [0u8; 64];
    let len = vector_fields::size_at(s, at);
    let spills = vector_fields::count_at(s, len.next);
    let number = vector_fields::number_at(s, spills.next);
    let staged_list = list_at(s, number.next, &mut staged);
    let table_list = list_at(s, staged_list.next, &mut table);
    let deleted_list = list_at(s, table_list.next, &mut deleted);
    let staged_counts = staged_list.counts;
    let table_counts = table_list.counts;
    let deleted_counts = deleted_list.counts;
    let given = Given {
        edition,
        counts: HeadCounts {
            len: len.n,
            spills: spills.n,
        },
        number: number.n,
        staged: staged_counts,
        table: table_counts,
        deleted: deleted_counts,
    };
    let staged_len = staged_list.len;
    let table_len = table_list.len;
    let deleted_len = deleted_list.len;
    make(
        to,
        name,
        call,
        parent,
        given,
        head,
        &mut staged[0..staged_len],
        &mut table[0..table_len],
        &mut deleted[0..deleted_len],
        s,
        deleted_list.next,
    )
}

fn edition_of(byte: u8) -> RowEdition {
    if byte == 2 {
        return RowEdition::Two;
    }
    RowEdition::One
}

// A call: the edition's number, the parent's byte, which its id has 32 times, the numbers of the head, and what `with_head` reads.
pub fn replay<W: Write>(to: &mut W, name: &[u8], call: Call, s: &[u8]) -> io::Result<()> {
    if s.len() < 2 {
        return vector_fields::cut(to);
    }
    let edition = edition_of(s[0]);
    let byte = s[1];
    let parent = [byte; 32];
    let mut head = [0i64; SEGMENT_THRESHOLD];
    let part = vector_fields::numbers_at(s, 2, &mut head);
    let len = part.len;
    with_head(
        to,
        name,
        call,
        edition,
        &parent,
        s,
        part.next,
        &mut head[0..len],
    )
}

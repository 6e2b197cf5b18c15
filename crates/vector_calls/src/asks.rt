// The calls that change neither head nor lists of spills.
use super::{Call, Given, show};
use segment_id::Kind;
use std::io;
use std::io::Write;

// A page: the offset is the call's number; its length and the list that is borrowed for it stand behind the other lists.
fn page<'a, W: Write>(
    to: &mut W,
    name: &[u8],
    parent: &[u8; 32],
    given: Given,
    head: &[i64],
    staged: &'a [u8],
    table: &'a [u8],
    s: &[u8],
    at: usize,
) -> io::Result<()> {
    let mut places = [0i64; 128];
    let length = vector_fields::size_at(s, at);
    let part = vector_fields::numbers_at(s, length.next, &mut places);
    let len = part.len;
    paged(
        to,
        name,
        parent,
        given,
        head,
        staged,
        table,
        length.n,
        &mut places[0..len],
    )
}

fn paged<'a, W: Write>(
    to: &mut W,
    name: &[u8],
    parent: &[u8; 32],
    given: Given,
    head: &[i64],
    staged: &'a [u8],
    table: &'a [u8],
    length: usize,
    places: &mut [i64],
) -> io::Result<()> {
    let edition = given.edition;
    let counts = given.counts;
    let staged_counts = given.staged;
    let table_counts = given.table;
    let offset = signed::magnitude(given.number) as usize;
    let answer = segment_buffer::unspent_page(
        edition,
        parent,
        counts,
        head,
        offset,
        length,
        staged_counts,
        staged,
        table_counts,
        table,
        places,
    );
    show::paged(to, name, answer, places)
}

// Replays a call that changes nothing: a tally, a page, the test of the lists, or where a row stands.
pub fn ask<'a, W: Write>(
    to: &mut W,
    name: &[u8],
    call: Call,
    parent: &[u8; 32],
    given: Given,
    head: &[i64],
    staged: &'a [u8],
    table: &'a [u8],
    deleted: &[u8],
    s: &[u8],
    at: usize,
) -> io::Result<()> {
    let edition = given.edition;
    let counts = given.counts;
    let staged_counts = given.staged;
    let table_counts = given.table;
    let deleted_counts = given.deleted;
    match call {
        Call::Page => page(to, name, parent, given, head, staged, table, s, at),
        Call::Tally => {
            let answer = segment_buffer::tally(
                edition,
                parent,
                counts,
                head,
                staged_counts,
                staged,
                table_counts,
                table,
            );
            show::tallied(to, name, answer)
        }
        Call::Lists => {
            let fit = segment_buffer::lists_ok(
                edition,
                staged_counts,
                staged,
                table_counts,
                table,
                deleted_counts,
                deleted,
            );
            show::fit(to, name, fit)
        }
        _ => {
            let key = segment_id::row_key(parent, Kind::Box, counts.spills);
            let located = spills::locate_spill(
                edition,
                &key,
                staged_counts,
                staged,
                table_counts,
                table,
            );
            show::located(to, name, located)
        }
    }
}

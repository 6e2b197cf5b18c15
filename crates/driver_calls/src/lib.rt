// The calls of a driver's input and the newest entry of its journal, read from borrowed bytes.
#![tactic(auto)]

ghost use Rattle.std.specs.Prelude.{◌≡◌, ◌+◌, ◌≤◌, ◌<◌, length};
ghost use Rattle.driver_core.specs.Bytes.{is_change, small_at, size_at};
ghost use Rattle.driver_calls.specs.Reads.{taking_read, plain_read, headed_read, read_at, newest_read, end_of, is_call, is_entry};

use index_types::{CUT_CALL, END_OF_INPUT};
use segment_id::Kind;

// The bytes of a header, and of a token: its id of 32 bytes and its amount of 8.
pub const HEADER_BYTES: usize = 17;

pub const TOKEN_BYTES: usize = 40;

// What stands at a place: a call with its parent and its number, an unspend or a pop, a flush, what is no call, the front of a call, or nothing. `Change` is a
// credit where it adds; behind its nanoErgs: where its tokens begin, and how many they are.
#[derive(Clone, Copy)]
pub enum Read {
    Append(Kind, usize, i64),
    Spend(usize, i64),
    Unspend(usize, i64),
    Pop(Kind, usize),
    Flush,
    Change(bool, usize, i64, usize, usize),
    Bad,
    Cut,
    End,
}

fn byte_number(x: u8) -> usize
    ensures { result ≡ x }
{
    x as usize
}

// The unsigned number in the four bytes at a position.
fn small_at(s: &[u8], at: usize) -> usize
    requires { at + 4 ≤ length s.now }
    ensures { (result ≡ small_at s.now at) × (result < 4294967296) }
{
    let mut n: usize = 0;
    for byte in &s[at..at + 4] {
        n = n * 256 + byte_number(*byte);
    }
    n
}

// Kinds 8 and 9: a credit and a debit.
fn is_change(kind: u8) -> bool
    ensures { result ≡ is_change kind }
{
    if kind == 8 {
        return true;
    }
    kind == 9
}

// Kinds 4 to 6: an unspend and the pops.
fn taking_read(kind: u8, parent: usize, n: i64) -> Read
    ensures { result ≡ taking_read kind parent n }
{
    if kind == 4 {
        return Read::Unspend(parent, n);
    }
    if kind == 5 {
        return Read::Pop(Kind::Box, parent);
    }
    if kind == 6 {
        return Read::Pop(Kind::Tx, parent);
    }
    Read::Bad
}

// The calls of kinds 1 to 6, which have no tokens.
fn plain_read(kind: u8, parent: usize, n: i64) -> Read
    ensures { result ≡ plain_read kind parent n }
{
    if kind == 1 {
        return Read::Append(Kind::Box, parent, n);
    }
    if kind == 2 {
        return Read::Append(Kind::Tx, parent, n);
    }
    if kind == 3 {
        return Read::Spend(parent, n);
    }
    taking_read(kind, parent, n)
}

// The item whose header stands at h; `room` tokens have room beside it, they begin at t.
fn headed_read(s: &[u8], h: usize, room: usize, t: usize, parents: usize) -> Read
    requires { h + 17 ≤ length s.now }
    ensures { result ≡ headed_read parents s.now h room t }
{
    let kind = s[h];
    let told = small_at(s, h + 13);
    if kind == 7 {
        if told == 0 {
            return Read::Flush;
        }
        return Read::Bad;
    }
    let parent = small_at(s, h + 1);
    if parents <= parent {
        return Read::Bad;
    }
    let n = calls::number_at(s, h + 5);
    if is_change(kind) {
        if room < told {
            return Read::Cut;
        }
        return Read::Change(kind == 8, parent, n, t, told);
    }
    if told == 0 {
        return plain_read(kind, parent, n);
    }
    Read::Bad
}

// What stands at a place of an input.
pub fn read_at(s: &[u8], at: usize, parents: usize) -> Read
    ensures { result ≡ read_at parents s.now at }
{
    if s.len() <= at {
        return Read::End;
    }
    let left = s.len() - at;
    if left < HEADER_BYTES {
        return Read::Cut;
    }
    headed_read(
        s,
        at,
        (left - HEADER_BYTES) / TOKEN_BYTES,
        at + HEADER_BYTES,
        parents,
    )
}

// The bytes of the item whose header stands at h.
pub fn size_at(s: &[u8], h: usize) -> usize
    requires { h + 17 ≤ length s.now }
    ensures { result ≡ size_at s.now h }
{
    HEADER_BYTES + small_at(s, h + 13) * TOKEN_BYTES
}

// The newest entry of a journal, of which `used` bytes are its entries: the tokens first, the header last.
pub fn newest_read(s: &[u8], used: usize, parents: usize) -> Read
    requires { used ≤ length s.now }
    ensures { result ≡ newest_read parents s.now used }
{
    if used < HEADER_BYTES {
        return Read::Bad;
    }
    let h = used - HEADER_BYTES;
    let room = h / TOKEN_BYTES;
    let count = small_at(s, h + 13);
    if room < count {
        return Read::Bad;
    }
    let size = HEADER_BYTES + count * TOKEN_BYTES;
    headed_read(s, h, room, used - size, parents)
}

// How reading ends: 0 at what is made, 1 at the end of the bytes, 2 inside a call, refusal 31 at what is no call; an unspend or a pop is none beside a journal.
pub fn end_of(journaled: bool, read: Read) -> u8
    ensures { result ≡ end_of journaled read }
{
    match read {
        Read::Append(_, _, _) => 0,
        Read::Spend(_, _) => 0,
        Read::Unspend(_, _) => { if journaled { refusal::UNKNOWN_CALL } else { 0 } }
        Read::Pop(_, _) => { if journaled { refusal::UNKNOWN_CALL } else { 0 } }
        Read::Flush => 0,
        Read::Change(_, _, _, _, _) => 0,
        Read::Bad => refusal::UNKNOWN_CALL,
        Read::Cut => CUT_CALL,
        Read::End => END_OF_INPUT,
    }
}

// Whether a call stands there, which an undo takes back.
pub fn is_call(read: Read) -> bool
    ensures { result ≡ is_call read }
{
    match read {
        Read::Append(_, _, _) => true,
        Read::Spend(_, _) => true,
        Read::Unspend(_, _) => false,
        Read::Pop(_, _) => false,
        Read::Flush => false,
        Read::Change(_, _, _, _, _) => true,
        Read::Bad => false,
        Read::Cut => false,
        Read::End => false,
    }
}

// Whether it becomes an entry where it is accepted.
pub fn is_entry(journaled: bool, read: Read) -> bool
    ensures { result ≡ is_entry journaled read }
{
    if journaled {
        return is_call(read);
    }
    false
}

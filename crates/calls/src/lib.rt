// The calls that the runner's input holds, read from borrowed bytes.
#![tactic(auto)]

ghost use Rattle.std.specs.Prelude.{◌≡◌, ◌+◌, ◌≤◌, ◌<◌, pos, length};
ghost use Rattle.calls.specs.Calls.{signed_of, number_at, with_number, with_token, with_parent, call_at, size_of, end_of};

use buffer_core::Direction;
use segment_id::Kind;

// A call with its parent and what it takes: a number, or a token byte with nanoErgs before it and its amount after it; `Change` is a credit where it adds.
// `Bad` is no call, `Cut` the front of one, `End` the end of the bytes.
#[derive(Clone, Copy)]
pub enum Call {
    Append(Kind, usize, i64),
    Flip(Direction, usize, i64),
    Pop(Kind, usize),
    Flush,
    Change(bool, usize, i64, u8, i64),
    Bad,
    Cut,
    End,
}

fn parent_number(x: u8) -> usize
    ensures { result ≡ x }
{
    x as usize
}

// The signed number with the bits of u.
fn signed_of(u: u64) -> i64
    ensures { result ≡ signed_of u }
{
    if u < 9223372036854775808 {
        signed::i64_from_u64(u)
    } else {
        signed::negsuc_from_u64(18446744073709551615 - u)
    }
}

// The signed number in the eight bytes at a position.
pub fn number_at(s: &[u8], at: usize) -> i64
    requires { at + 8 ≤ length s.now }
    ensures { result ≡ number_at s.now at }
{
    signed_of(big_endian::get_u64(s, at))
}

// The calls of kinds 1 to 4.
fn with_number(kind: u8, parent: usize, n: i64) -> Call
    ensures { result ≡ with_number kind parent n }
{
    if kind == 1 {
        return Call::Append(Kind::Box, parent, n);
    }
    if kind == 2 {
        return Call::Append(Kind::Tx, parent, n);
    }
    if kind == 3 {
        return Call::Flip(Direction::Spend, parent, n);
    }
    Call::Flip(Direction::Unspend, parent, n)
}

// The calls of kinds 8 and 9, of which left bytes are there.
fn with_token(adding: bool, parent: usize, nanos: i64, left: usize, s: &[u8], at: usize) -> Call
    requires { at + left ≡ length s.now }
    ensures { result ≡ with_token adding parent nanos left s.now at }
{
    if left < 19 {
        return Call::Cut;
    }
    let token = s[at + 10];
    let amount = number_at(s, at + 11);
    Call::Change(adding, parent, nanos, token, amount)
}

// The calls that name a parent.
fn with_parent(kind: u8, parent: usize, parents: usize, left: usize, s: &[u8], at: usize) -> Call
    requires { at + left ≡ length s.now }
    ensures { result ≡ with_parent kind parent parents left s.now at }
{
    if parents <= parent {
        return Call::Bad;
    }
    if kind == 5 {
        return Call::Pop(Kind::Box, parent);
    }
    if kind == 6 {
        return Call::Pop(Kind::Tx, parent);
    }
    if left < 10 {
        return Call::Cut;
    }
    let n = number_at(s, at + 2);
    if kind < 5 {
        return with_number(kind, parent, n);
    }
    with_token(kind == 8, parent, n, left, s, at)
}

// The call at a position.
pub fn next_call(s: &[u8], at: usize, parents: usize) -> Call
    ensures { result ≡ call_at parents s.now at }
{
    if s.len() <= at {
        return Call::End;
    }
    let left = s.len() - at;
    let kind = s[at];
    if kind == 7 {
        return Call::Flush;
    }
    if kind == 0 {
        return Call::Bad;
    }
    if 9 < kind {
        return Call::Bad;
    }
    if left < 2 {
        return Call::Cut;
    }
    with_parent(kind, parent_number(s[at + 1]), parents, left, s, at)
}

// The bytes of a call; 0 where there is none.
pub fn size_of(call: Call) -> usize
    ensures { result ≡ size_of call }
{
    match call {
        Call::Append(_, _, _) => 10,
        Call::Flip(_, _, _) => 10,
        Call::Pop(_, _) => 2,
        Call::Flush => 1,
        Call::Change(_, _, _, _, _) => 19,
        Call::Bad => 0,
        Call::Cut => 0,
        Call::End => 0,
    }
}

// How reading ends where there is no call: 1 at the end of the bytes, 2 inside a call, refusal 31 at what is no call.
pub fn end_of(call: Call) -> u8
    ensures { result ≡ end_of call }
{
    match call {
        Call::Append(_, _, _) => 0,
        Call::Flip(_, _, _) => 0,
        Call::Pop(_, _) => 0,
        Call::Flush => 0,
        Call::Change(_, _, _, _, _) => 0,
        Call::Bad => 31,
        Call::Cut => 2,
        Call::End => 1,
    }
}

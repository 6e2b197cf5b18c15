// The input of the call runner passes through one buffer: the bytes from `at` up to `have` wait in it. Here is where a session stands in its input,
// what is done next, and how the buffer is filled.
#![tactic(auto)]

ghost use Rattle.std.specs.Prelude.{◌≡◌, ◌+◌, ◌-◌, ◌≤◌, ◌<◌, length};
ghost use Rattle.call_input.specs.Counts.{clamp_len};
ghost use Rattle.call_input.specs.Place.{at_start, goes_on, after_read, taken, after_calls, called};
ghost use Rattle.call_input.specs.Waiting.{Fed};

use std::io::Read;

// What is done next. `Read` and `End` hold the refusal, or 0, that stands behind the calls made where the input has no more bytes.
#[derive(Clone, Copy)]
pub enum Next {
    Run,
    Read(u8),
    End(u8),
    ReadFailed,
    WriteFailed,
}

// The next byte of the buffer, the bytes in it, the calls made, and what is done next.
#[derive(Clone, Copy)]
pub struct Place {
    pub at: usize,
    pub have: usize,
    pub made: u64,
    pub next: Next,
}

// Nothing read yet.
pub fn start() -> Place
    ensures { result ≡ at_start }
{
    Place {
        at: 0,
        have: 0,
        made: 0,
        next: Next::Read(0),
    }
}

// Whether there is more to do.
pub fn goes_on(next: Next) -> bool
    ensures { result ≡ goes_on next }
{
    match next {
        Next::Run => true,
        Next::Read(_) => true,
        Next::End(_) => false,
        Next::ReadFailed => false,
        Next::WriteFailed => false,
    }
}

// ---- reading

// What follows a read that answered so.
fn after_read(got: isize, code: u8) -> Next
    ensures { result ≡ after_read got code }
{
    if got < 0 {
        return Next::ReadFailed;
    }
    if got == 0 {
        return Next::End(code);
    }
    Next::Run
}

// How many bytes more wait after a read that answered so and had this room.
fn count(got: isize, room: usize) -> usize
    ensures { result ≡ clamp_len got room }
{
    if got < 0 {
        return 0;
    }
    let n = got as usize;
    if n < room { n } else { room }
}

// Reads once: how many bytes were put, or -1 where the read failed.
fn read_once<R: Read>(source: &mut R, part: &mut [u8]) -> isize {
    match source.read(part) {
        Ok(n) => n as isize,
        Err(_) => -1,
    }
}

// Where a session stands whose read behind `left` bytes answered `got`: as many bytes more wait.
fn took(got: isize, input: &[u8], left: usize, made: u64, code: u8) -> Place
    requires { left ≤ length input.now }
    ensures { result ≡ taken got (length input.now - left) left made code }
{
    let n = count(got, input.len() - left);
    let have = left + n;
    let next = after_read(got, code);
    Place {
        at: 0,
        have,
        made,
        next,
    }
}

// Moves what waits to the front of the buffer and reads once behind it. A call has at most 19 bytes, so that there is room.
pub fn read<R: Read>(source: &mut R, input: &mut [u8], p: Place, code: u8) -> Place
    requires { (p.at ≤ p.have) × (p.have ≤ length input.old) }
    ensures { Fed p.at p.have p.made code input.old result input.new }
{
    let at = p.at;
    let have = p.have;
    let made = p.made;
    let left = have - at;
    stores::move_bytes(input, at, 0, left);
    let got = read_once(source, &mut input[left..]);
    took(got, input, left, made, code)
}

// ---- after calls

// What follows calls whose lines were written or not, where reading the calls ended so.
fn after_calls(written: bool, end: u8) -> Next
    ensures { result ≡ after_calls written end }
{
    if !written {
        return Next::WriteFailed;
    }
    match end {
        0 => Next::Run,
        1 => Next::Read(0),
        2 => Next::Read(refusal::UNKNOWN_CALL),
        _ => Next::End(end),
    }
}

// Where a session stands behind n calls of so many bytes.
pub fn behind_calls(p: Place, bytes: usize, n: usize, end: u8, written: bool) -> Place
    requires { (p.at + bytes ≤ p.have) × (p.made + «n» < 18446744073709551616) }
    ensures { result ≡ called p bytes «n» end written }
{
    let at = p.at + bytes;
    let have = p.have;
    let made = p.made + (n as u64);
    let next = after_calls(written, end);
    Place {
        at,
        have,
        made,
        next,
    }
}

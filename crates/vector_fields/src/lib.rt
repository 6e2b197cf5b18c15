// Fields of a record of test vectors, and the lists that stand on a line of answers.
// A record is a byte of kind, how many bytes follow (two bytes, high byte first), and these: the length of a name (one byte), the name, and the fields.
// A field is a coded number, or a list: its length, how many elements are given, and these, numbers coded and bytes as they are; the last one given
// also stands in all places behind it. Where a field is cut, a number is 0.
#![tactic(auto)]

ghost use Rattle.std.specs.Prelude.{◌<◌, ◌≤◌, length};

use std::io;
use std::io::Write;

// A byte as a length.
pub fn as_length(x: u8) -> usize
    ensures { result < 256 }
{
    x as usize
}

// The position behind the record at a position, or the position itself where the record is cut.
pub fn record_end(s: &[u8], at: usize) -> usize
    requires { at ≤ length s.now }
    ensures { (at ≤ result) × (result ≤ length s.now) }
{
    let left = s.len() - at;
    if left < 3 {
        return at;
    }
    let high = at + 1;
    let low = at + 2;
    let n = as_length(s[high]) * 256 + as_length(s[low]);
    if left - 3 < n {
        return at;
    }
    at + 3 + n
}

// A line of a record that is cut.
pub fn cut<W: Write>(to: &mut W) -> io::Result<()> {
    vector_line::code_line(to, b"cut", refusal::BYTES_END)
}

// ---- fields

// A number, and the position behind it.
#[derive(Clone, Copy)]
pub struct Number {
    pub n: i64,
    pub next: usize,
}

#[derive(Clone, Copy)]
pub struct Count {
    pub n: i32,
    pub next: usize,
}

#[derive(Clone, Copy)]
pub struct Size {
    pub n: usize,
    pub next: usize,
}

// How many elements of a borrowed list stand for the record's, and the position behind them.
#[derive(Clone, Copy)]
pub struct Part {
    pub len: usize,
    pub next: usize,
}

// A 64-bit number.
pub fn number_at(s: &[u8], at: usize) -> Number {
    match vlq::get_i64(s, at) {
        Ok((n, next)) => Number { n, next },
        Err(_) => Number { n: 0, next: at },
    }
}

// A 32-bit number.
pub fn count_at(s: &[u8], at: usize) -> Count {
    match vlq::get_i32(s, at) {
        Ok((n, next)) => Count { n, next },
        Err(_) => Count { n: 0, next: at },
    }
}

// A number that is not negative.
pub fn size_at(s: &[u8], at: usize) -> Size {
    let found = number_at(s, at);
    Size {
        n: signed::magnitude(found.n) as usize,
        next: found.next,
    }
}

fn least(a: usize, b: usize) -> usize
    ensures { result ≤ b }
{
    if a < b { a } else { b }
}

// A list of numbers, as many as were borrowed.
pub fn numbers_at(s: &[u8], at: usize, out: &mut [i64]) -> Part
    ensures { result.len ≤ length out.old }
{
    let size = size_at(s, at);
    let given = size_at(s, size.next);
    let len = least(size.n, out.len());
    let many = given.n;
    let mut next = given.next;
    let mut last: i64 = 0;
    for i in 0..len {
        if i < many {
            let found = number_at(s, next);
            last = found.n;
            next = found.next;
        }
        out[i] = last;
    }
    Part { len, next }
}

// A list of bytes, as many as were borrowed.
pub fn bytes_at(s: &[u8], at: usize, out: &mut [u8]) -> Part
    ensures { result.len ≤ length out.old }
{
    let size = size_at(s, at);
    let given = size_at(s, size.next);
    let len = least(size.n, out.len());
    let many = given.n;
    let mut next = given.next;
    let mut last: u8 = 0;
    for i in 0..len {
        if i < many {
            if next < s.len() {
                last = s[next];
                next += 1;
            }
        }
        out[i] = last;
    }
    Part { len, next }
}

// ---- lists on a line

// The first n parts of `unit` bytes each, in hexadecimal.
pub fn bytes<W: Write>(to: &mut W, list: &[u8], unit: usize, n: usize) -> io::Result<()>
    requires { 0 < unit }
{
    to.write_all(b" ")?;
    for i in 0..list.len() {
        if i / unit < n {
            write!(to, "{:02x}", list[i])?;
        }
    }
    Ok(())
}

// How many numbers a list has, and the numbers, as many as were borrowed.
pub fn numbers<W: Write>(to: &mut W, list: &[i64], n: usize) -> io::Result<()> {
    vector_line::number(to, n as u64)?;
    for i in 0..list.len() {
        if i < n {
            vector_line::signed_number(to, list[i])?;
        }
    }
    Ok(())
}

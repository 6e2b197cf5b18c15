// What the vector programs print: a line for each case, its name and what came out.
#![tactic(auto)]

use refusal::Answer;
use std::io;
use std::io::Write;

fn wide(x: u8) -> u64 {
    x as u64
}

// Begins a line with the case's name.
pub fn start<W: Write>(to: &mut W, name: &[u8]) -> io::Result<()> {
    to.write_all(name)?;
    to.write_all(b":")
}

// A number on the line.
pub fn number<W: Write>(to: &mut W, n: u64) -> io::Result<()> {
    write!(to, " {n}")
}

// A signed number on the line.
pub fn signed_number<W: Write>(to: &mut W, n: i64) -> io::Result<()> {
    write!(to, " {n}")
}

// Whether something holds, as 1 or 0.
pub fn flag<W: Write>(to: &mut W, holds: bool) -> io::Result<()> {
    if holds { number(to, 1) } else { number(to, 0) }
}

// Ends the line.
pub fn end<W: Write>(to: &mut W) -> io::Result<()> {
    to.write_all(b"\n")
}

// A refusal code on the line, or 0 where the call was accepted.
pub fn code<W: Write>(to: &mut W, code: u8) -> io::Result<()> {
    number(to, wide(code))
}

// A line of a name and a refusal code, or 0.
pub fn code_line<W: Write>(to: &mut W, name: &[u8], code: u8) -> io::Result<()> {
    start(to, name)?;
    number(to, wide(code))?;
    end(to)
}

// Begins the line of a call that was accepted: its name and 0.
pub fn accepted<W: Write>(to: &mut W, name: &[u8]) -> io::Result<()> {
    start(to, name)?;
    number(to, 0)
}

// A line of a call that was accepted, and one number that it gave.
pub fn value_line<W: Write>(to: &mut W, name: &[u8], n: u64) -> io::Result<()> {
    accepted(to, name)?;
    number(to, n)?;
    end(to)
}

// The number of an answer: the refusal code, or 0.
pub fn code_of(answer: Answer) -> u8 {
    match answer {
        Ok(()) => 0,
        Err(code) => code,
    }
}

// A line of a name and an answer.
pub fn answer_line<W: Write>(to: &mut W, name: &[u8], answer: Answer) -> io::Result<()> {
    code_line(to, name, code_of(answer))
}

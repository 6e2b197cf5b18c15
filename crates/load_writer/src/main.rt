// Writes a load that can be repeated (document 02, U11) to standard output: its two arguments are the state and how many calls, in decimal digits.
// The calls pass through one buffer, a piece at a time: each piece goes on from the generator that the one before left.
// The files args and stdout are 8,000 calls from state 1, of more than one piece; stdout was made by compare/load_model.py.
#![tactic(auto)]

ghost use Rattle.std.specs.Prelude.{◌≡◌, ◌≤◌, ◌<◌, length, take};
ghost use Rattle.load.specs.Bytes.{load_bytes};

use load::Source;
use std::env::Env;
use std::io::Write;

// The most calls of a piece: 10 bytes each fit in the buffer.
const PIECE: u64 = 6553;

fn say<E: Eprint>(errors: &E, message: &str) {
    let _ = errors.eprintln(message);
}

// ---- the arguments

// A number of 64 bits, or that the text is none.
#[derive(Clone, Copy)]
enum Argument {
    Is(u64),
    NoNumber,
}

fn digit_of(c: u8) -> u64
    ensures { result ≤ 255 }
{
    c as u64
}

fn number_of(text: &[u8]) -> Argument {
    if text.len() == 0 {
        return Argument::NoNumber;
    }
    let mut n: u64 = 0;
    for &c in text {
        let digit = digit_of(c);
        if digit < 48 {
            return Argument::NoNumber;
        }
        if 57 < digit {
            return Argument::NoNumber;
        }
        let Some(tens) = n.checked_mul(10) else {
            return Argument::NoNumber;
        };
        let Some(sum) = tens.checked_add(digit - 48) else {
            return Argument::NoNumber;
        };
        n = sum;
    }
    Argument::Is(n)
}

fn number_at<E: Env>(env: &E, i: usize) -> Argument {
    let mut text = [0u8; 32];
    match env.arg(i, &mut text) {
        Ok(n) => number_of(&text[..n]),
        Err(_) => Argument::NoNumber,
    }
}

// ---- the load

// Hands the next calls over, the first `end` bytes: whether all of them were taken.
fn hand_calls<W: Write>(to: &mut W, g: Source, count: u64, out: &[u8], end: usize) -> bool
    requires { (end ≤ length out.now) × (take end out.now ≡ load_bytes count g) }
{
    to.write_all(&out[..end]).is_ok()
}

// What follows a piece: the generator after it, or that no calls follow.
#[derive(Clone, Copy)]
enum Next {
    From(Source),
    Nothing,
}

// Writes the next calls, at most a piece of them.
fn write_piece<W: Write, E: Eprint>(
    to: &mut W,
    errors: &E,
    g: Source,
    count: u64,
    out: &mut [u8; 65536],
) -> Next {
    match load::go_on(g, count, out) {
        Ok((n, after)) => {
            if hand_calls(to, g, count, out, n) {
                return Next::From(after);
            }
            say(
                errors,
                "load_writer: standard output cannot be written: the calls end early",
            );
            Next::Nothing
        }
        Err(_) => {
            say(errors, "load_writer: the state is 0 (38)");
            Next::Nothing
        }
    }
}

// The calls of the next piece.
fn piece_of(left: u64) -> u64
    requires { 0 < left }
    ensures { (0 < result) × (result ≤ left) }
{
    if left < PIECE { left } else { PIECE }
}

fn write_load<W: Write, E: Eprint>(to: &mut W, errors: &E, state: u64, count: u64) {
    let mut out = [0u8; 65536];
    let mut g = Source {
        state,
        boxes: 0,
        txs: 0,
    };
    let mut left = count;
    while 0 < left {
        let n = piece_of(left);
        match write_piece(to, errors, g, n, &mut out) {
            Next::From(after) => {
                g = after;
                left -= n;
            }
            Next::Nothing => {
                left = 0;
            }
        }
    }
}

fn usage<E: Eprint>(errors: &E) {
    say(
        errors,
        "load_writer STATE CALLS: two numbers in decimal digits",
    );
}

fn main(rt: HostRuntime) {
    match number_at(&rt, 1) {
        Argument::Is(state) => match number_at(&rt, 2) {
            Argument::Is(count) => write_load(&mut rt.stdout(), &rt, state, count),
            Argument::NoNumber => usage(&rt),
        },
        Argument::NoNumber => usage(&rt),
    }
}

// Prints every short history (document 02, U10) to standard output, one on a line, its calls by name.
// The file stdout was made by compare/histories_model.py.
#![tactic(auto)]

ghost use Rattle.std.specs.Prelude.{◌≡◌, ◌≤◌, length, take};
ghost use Rattle.history_growth.specs.Listing.{histories, bytes_of};

use short_histories::HISTORIES_LENGTH;
use std::io;
use std::io::Write;

fn wide(x: u8) -> usize
    ensures { result ≤ 255 }
{
    x as usize
}

// A call by its number.
fn print_call<W: Write>(to: &mut W, number: u8) -> io::Result<()> {
    match number {
        1 => to.write_all(b"append 1"),
        2 => to.write_all(b"append 2"),
        3 => to.write_all(b"spend 1"),
        4 => to.write_all(b"spend 2"),
        5 => to.write_all(b"undo"),
        _ => to.write_all(b"flush"),
    }
}

// A line of the calls from `at` up to `end`.
fn print_history<W: Write>(to: &mut W, list: &[u8], at: usize, end: usize) -> io::Result<()>
    requires { (at ≤ end) × (end ≤ length list.now) }
{
    if at == end {
        to.write_all(b"no call")?;
    }
    for (i, &number) in list[at..end].iter().enumerate() {
        if 0 < i {
            to.write_all(b", ")?;
        }
        print_call(to, number)?;
    }
    to.write_all(b"\n")
}

// Prints the histories, which are the first `end` bytes.
fn print_histories<W: Write>(to: &mut W, list: &[u8], end: usize) -> io::Result<()>
    requires { (end ≤ length list.now) × (take end list.now ≡ bytes_of histories) }
{
    let mut at = 0;
    while at < end {
        let n = wide(list[at]);
        let from = at + 1;
        if end - from < n {
            return Ok(());
        }
        print_history(to, list, from, from + n)?;
        at = from + n;
    }
    Ok(())
}

fn main(rt: HostRuntime) -> io::Result<()> {
    let mut out = [0u8; HISTORIES_LENGTH];
    match short_histories::list_histories(&mut out) {
        Ok(end) => print_histories(&mut rt.stdout(), &out, end),
        Err(_) => rt.eprintln("history_printer: the output is too short (32)"),
    }
}

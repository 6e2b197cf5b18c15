// The parts of a line in decimal, each behind a space, written into borrowed bytes: each writer answers the position behind what it wrote.
#![tactic(auto)]

ghost use Rattle.std.specs.Prelude.{◌+◌, ◌≤◌, length};
ghost use Rattle.stores.specs.Stores.{Put};
ghost use Rattle.line_parts.specs.Parts.{spaced, spaced_number};

const SPACE: u8 = b' ';

// Writes a space and a number.
pub fn put_spaced(n: u64, out: &mut [u8], at: usize) -> usize
    requires { at + 21 ≤ length out.old }
    ensures { Put (spaced n) out.old at result out.new × (result ≤ at + 21) }
{
    out[at] = SPACE;
    text::put_decimal(n, out, at + 1)
}

// Writes a space and a signed number.
pub fn put_spaced_number(z: i64, out: &mut [u8], at: usize) -> usize
    requires { at + 22 ≤ length out.old }
    ensures { Put (spaced_number z) out.old at result out.new × (result ≤ at + 22) }
{
    out[at] = SPACE;
    text::put_number(z, out, at + 1)
}

// Hex and decimal text, written into borrowed bytes: each writer answers the position behind what it wrote.
#![tactic(auto)]

ghost use Rattle.std.specs.Prelude.{◌≡◌, ◌+◌, ◌*◌, ◌<◌, ◌≤◌, length};
ghost use Rattle.stores.specs.Stores.{Put};
ghost use Rattle.text.specs.Text.{hex_digit, hex, decimal, number};

const HEX_DIGITS: [u8; 16] = *b"0123456789abcdef";

// The hex digit of a number below 16.
pub fn hex_digit(n: u8) -> u8
    requires { n < 16 }
    ensures { result ≡ hex_digit n }
{
    let i = n as usize;
    HEX_DIGITS[i]
}

// Writes bytes in hex.
#[tactic(auto, using(crate::proofs::TextLaws::hex_past, crate::proofs::TextLaws::hex_length))]
pub fn put_hex(id: &[u8], out: &mut [u8], at: usize) -> usize
    requires { at + 2 * length id.now ≤ length out.old }
    ensures { Put (hex id.now) out.old at result out.new }
{
    let mut o = at;
    for &b in id {
        let p = o + 1;
        out[o] = hex_digit(b / 16);
        out[p] = hex_digit(b % 16);
        o += 2;
    }
    o
}

// Writes a number in decimal.
pub fn put_decimal(n: u64, out: &mut [u8], at: usize) -> usize
    requires { at + length (decimal n) ≤ length out.old }
    ensures { Put (decimal n) out.old at result out.new }
{
    if n < 10 {
        out[at] = (48 + n) as u8;
        return at + 1;
    }
    let o = put_decimal(n / 10, out, at);
    out[o] = (48 + n % 10) as u8;
    o + 1
}

// Writes a signed number in decimal, "-" before a negative one.
pub fn put_number(z: i64, out: &mut [u8], at: usize) -> usize
    requires { at + length (number z) ≤ length out.old }
    ensures { Put (number z) out.old at result out.new }
{
    let n = signed::magnitude(z);
    if signed::is_negative(z) {
        out[at] = b'-';
        put_decimal(n, out, at + 1)
    } else {
        put_decimal(n, out, at)
    }
}

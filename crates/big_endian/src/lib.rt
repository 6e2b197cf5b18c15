// Numbers of 64 bits as eight bytes, high byte first.
#![tactic(auto)]

ghost use Rattle.std.specs.Prelude.{◌≡◌, ◌+◌, ◌≤◌, length};
ghost use Rattle.stores.specs.Stores.{Put};
ghost use Rattle.big_endian.specs.BigEndian.{eight_bytes, value_at};

fn wide(x: u8) -> u64
    ensures { result ≡ x }
{
    x as u64
}

// The number in the eight bytes at a position.
#[tactic(auto, using(crate::proofs::ByteLaws::value_turn, crate::proofs::ByteLaws::value_grown), unfolding(crate::specs::BigEndian::value_of, crate::specs::BigEndian::value_at))]
pub fn get_u64(s: &[u8], at: usize) -> u64
    requires { at + 8 ≤ length s.now }
    ensures { result ≡ value_at s.now at }
{
    let end = at + 8;
    let mut n: u64 = 0;
    for &b in &s[at..end] {
        n = n * 256 + wide(b);
    }
    n
}

// Writes the eight bytes of a number at a position, and gives the position behind them.
pub fn put_u64(n: u64, out: &mut [u8], at: usize) -> usize
    requires { at + 8 ≤ length out.old }
    ensures { Put (eight_bytes n) out.old at result out.new }
{
    let p1 = at + 1;
    let p2 = at + 2;
    let p3 = at + 3;
    let p4 = at + 4;
    let p5 = at + 5;
    let p6 = at + 6;
    let p7 = at + 7;
    out[at] = (n / 0x100_0000_0000_0000 % 256) as u8;
    out[p1] = (n / 0x1_0000_0000_0000 % 256) as u8;
    out[p2] = (n / 0x100_0000_0000 % 256) as u8;
    out[p3] = (n / 0x1_0000_0000 % 256) as u8;
    out[p4] = (n / 0x100_0000 % 256) as u8;
    out[p5] = (n / 0x1_0000 % 256) as u8;
    out[p6] = (n / 0x100 % 256) as u8;
    out[p7] = (n % 256) as u8;
    at + 8
}

// Data blocks of section 3.3: sixteen words of eight bytes, the last block padded with zeros.
ghost use Rattle.std.specs.Prelude.{◌≡◌, ℕ, ◌+◌, ◌-◌, ◌^◌, ◌<◌, ◌≤◌, get_or, length};
ghost use Rattle.blake2b_spec.specs.Blake2b as spec;

fn wide(x: u8) -> u64
    ensures value { result ≡ x }
    ensures upper_bound { result < 256 }
{
    x as u64
}

// Four bytes as a number, the lowest first.
fn half(s: &[u8], at: usize) -> u64
    requires { at + 4 ≤ length s.now }
    ensures value { result ≡ spec.le32 s.now at }
    ensures fits { result < 2 ^ 32 }
{
    wide(s[at])
        + wide(s[at + 1]) * 0x100
        + wide(s[at + 2]) * 0x1_0000
        + wide(s[at + 3]) * 0x100_0000
}

// The word whose eight bytes start at a place.
fn load(s: &[u8], at: usize) -> u64
    requires { at + 8 ≤ length s.now }
    ensures { result ≡ spec.le64 s.now at }
{
    half(s, at) + half(s, at + 4) * 0x1_0000_0000
}

// A block whose bytes are all there.
pub fn block(s: &[u8], at: usize) -> [u64; 16]
    requires { at + 128 ≤ length s.now }
    ensures { result ≡ spec.block s.now at }
{
    let mut m = [0u64; 16];
    for i in 0..16 {
        m[i] = load(s, at + i * 8);
    }
    m
}

// The bytes from a place on, and zeros behind them.
fn padded(s: &[u8], at: usize) -> [u8; 128]
    requires { (at ≤ length s.now) × (length s.now - at ≤ 128) }
    ensures { (128 ≡ length result) × ((k : ℕ) → get_or result k 0 ≡ get_or s.now (at + k) 0) }
{
    let mut p = [0u8; 128];
    let n = s.len() - at;
    p[..n].copy_from_slice(&s[at..]);
    p
}

// The last block.
pub fn last_block(s: &[u8], at: usize) -> [u64; 16]
    requires { (at ≤ length s.now) × (length s.now - at ≤ 128) }
    ensures { result ≡ spec.block s.now at }
{
    let p = padded(s, at);
    block(&p, 0)
}

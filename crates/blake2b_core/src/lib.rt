// BLAKE2b of RFC 7693, unkeyed, for any input and a digest of 1 to 64 bytes.
#![tactic(auto)]

ghost use Rattle.std.specs.Prelude.{◌≡◌, ◌/◌, ◌%◌, ◌^◌, ◌<◌, ◌≤◌, length};
ghost use Rattle.blake2b_spec.specs.Blake2b as spec;

mod blocks;

// The message schedule of section 2.7, a row of sixteen numbers to a line.
pub const SIGMA: [u8; 160] = *b"\
\x00\x01\x02\x03\x04\x05\x06\x07\x08\x09\x0a\x0b\x0c\x0d\x0e\x0f\
\x0e\x0a\x04\x08\x09\x0f\x0d\x06\x01\x0c\x00\x02\x0b\x07\x05\x03\
\x0b\x08\x0c\x00\x05\x02\x0f\x0d\x0a\x0e\x03\x06\x07\x01\x09\x04\
\x07\x09\x03\x01\x0d\x0c\x0b\x0e\x02\x06\x05\x0a\x04\x00\x0f\x08\
\x09\x00\x05\x07\x02\x04\x0a\x0f\x0e\x01\x0b\x0c\x06\x08\x03\x0d\
\x02\x0c\x06\x0a\x00\x0b\x08\x03\x04\x0d\x07\x05\x0f\x0e\x01\x09\
\x0c\x05\x01\x0f\x0e\x0d\x04\x0a\x00\x07\x06\x03\x09\x02\x08\x0b\
\x0d\x0b\x07\x0e\x0c\x01\x03\x09\x05\x00\x0f\x04\x08\x06\x02\x0a\
\x06\x0f\x0e\x09\x0b\x03\x00\x08\x0c\x02\x0d\x07\x01\x04\x0a\x05\
\x0a\x02\x08\x04\x07\x06\x01\x05\x0f\x0b\x09\x0e\x03\x0c\x0d\x00";

// The state before the first block.
fn start(nn: u64) -> [u64; 8]
    ensures { result ≡ spec.start nn }
{
    let iv = blake2b_compression::IV;
    [
        iv[0] ^ 0x0101_0000 ^ nn,
        iv[1],
        iv[2],
        iv[3],
        iv[4],
        iv[5],
        iv[6],
        iv[7],
    ]
}

// The state after the last block, for a digest of nn bytes.
pub fn state(s: &[u8], nn: u64) -> [u64; 8]
    requires { (1 ≤ nn) × (nn ≤ 64) }
    ensures { result ≡ spec.final nn s.now }
{
    let sigma = SIGMA;
    let n = s.len();
    let mut h = start(nn);
    let full = n.saturating_sub(1) / 128;
    for i in 0..full {
        let m = blocks::block(s, i * 128);
        let read = (i + 1) * 128;
        h = blake2b_compression::compress(&h, &m, &sigma, read as u64, false);
    }
    let m = blocks::last_block(s, full * 128);
    blake2b_compression::compress(&h, &m, &sigma, n as u64, true)
}

// The byte of a word that starts at bit k.
fn byte_of(x: u64, k: u64) -> u8
    requires { k < 64 }
    ensures { result ≡ x / 2 ^ k % 256 }
{
    ((x >> k) & 0xff) as u8
}

// Fills the output with the first bytes of the state.
fn bytes_into(h: &[u64; 8], out: &mut [u8])
    requires { length out.old ≤ 64 }
    ensures { out.new ≡ spec.tabulate (spec.byte_at h.now) (length out.old) }
{
    for (i, byte) in out.iter_mut().enumerate() {
        *byte = byte_of(h[i / 8], ((i % 8) * 8) as u64);
    }
}

// Fills the output, of 1 to 64 bytes, with the digest of that length.
pub fn digest_into(s: &[u8], out: &mut [u8])
    requires { (1 ≤ length out.old) × (length out.old ≤ 64) }
    ensures { out.new ≡ spec.blake2b (length out.old) s.now }
{
    let h = state(s, out.len() as u64);
    bytes_into(&h, out);
}

// Digests and row keys, a line each, in hexadecimal.
ghost use Rattle.std.specs.Prelude.{◌≡◌, ◌≤◌, length};

use segment_id::Kind;
use std::io;
use std::io::Write;

fn line<W: Write>(to: &mut W, name: &[u8], digest: &[u8]) -> io::Result<()> {
    vector_line::start(to, name)?;
    vector_fields::bytes(to, digest, 1, digest.len())?;
    vector_line::end(to)
}

// The digest of a record's bytes.
pub fn digest<W: Write>(to: &mut W, name: &[u8], s: &[u8]) -> io::Result<()> {
    let d = blake2b::blake2b256(s);
    line(to, name, &d)
}

// The digest of 64 bytes.
pub fn digest_512<W: Write>(to: &mut W, name: &[u8], s: &[u8]) -> io::Result<()> {
    let mut d = [0u8; 64];
    blake2b_core::digest_into(s, &mut d);
    line(to, name, &d)
}

fn parent_of(s: &[u8]) -> [u8; 32]
    requires { 32 ≤ length s.now }
    ensures { 32 ≡ length result }
{
    let mut parent = [0u8; 32];
    stores::copy_bytes(&mut parent, 0, &s[0..32]);
    parent
}

fn key<W: Write>(to: &mut W, name: &[u8], kind: Kind, s: &[u8], number: i32) -> io::Result<()>
    requires { 32 ≤ length s.now }
{
    let parent = parent_of(s);
    let k = segment_id::row_key(&parent, kind, number);
    line(to, name, &k)
}

// The key of a record: the parent's id and the spill number as a coded number.
pub fn row_key<W: Write>(to: &mut W, name: &[u8], kind: Kind, s: &[u8]) -> io::Result<()> {
    if s.len() < 32 {
        return vector_line::code_line(to, name, refusal::BYTES_END);
    }
    match vlq::get_i32(s, 32) {
        Ok((n, _)) => key(to, name, kind, s, n),
        Err(code) => vector_line::code_line(to, name, code),
    }
}

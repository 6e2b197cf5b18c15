// Row keys: the ids of spilled segments.
#![tactic(auto)]

ghost use Rattle.std.specs.Prelude.{◌≡◌, ◌+◌, ◌≤◌, length};
ghost use Rattle.stores.specs.Stores.{Put};
ghost use Rattle.segment_id.specs.Key.{separator, key_text, row_key};

// The two lists that spill: boxes and transactions.
#[derive(Clone, Copy)]
pub enum Kind {
    Box,
    Tx,
}

fn put_separator(kind: Kind, out: &mut [u8], at: usize) -> usize
    requires { at + length (separator kind) ≤ length out.old }
    ensures { Put (separator kind) out.old at result out.new }
{
    match kind {
        Kind::Box => stores::put_bytes(b" box segment ", out, at),
        Kind::Tx => stores::put_bytes(b" tx segment ", out, at),
    }
}

// Writes a row key's text at the front of out, of which it takes at most 64 + 13 + 11 bytes.
fn put_key_text(parent: &[u8], kind: Kind, number: i32, out: &mut [u8]) -> usize
    requires { (length parent.now ≡ 32) × (88 ≤ length out.old) }
    ensures { Put (key_text parent.now kind number) out.old 0 result out.new }
{
    let after_id = text::put_hex(parent, out, 0);
    let after_separator = put_separator(kind, out, after_id);
    let wide = signed::i64_from_i32(number);
    text::put_number(wide, out, after_separator)
}

// The key of a parent's row with this spill number.
pub fn row_key(parent: &[u8; 32], kind: Kind, number: i32) -> [u8; 32]
    ensures { (result ≡ row_key parent.now kind number) × (32 ≡ length result) }
{
    let mut buf = [0u8; 88];
    let n = put_key_text(parent, kind, number, &mut buf);
    blake2b::blake2b256(&buf[..n])
}

// The key of a parent's row of boxes with this spill number.
pub fn box_segment_id(parent: &[u8; 32], number: i32) -> [u8; 32]
    ensures { (result ≡ row_key parent.now Kind.Box number) × (32 ≡ length result) }
{
    row_key(parent, Kind::Box, number)
}

// The key of a parent's row of transactions with this spill number.
pub fn tx_segment_id(parent: &[u8; 32], number: i32) -> [u8; 32]
    ensures { (result ≡ row_key parent.now Kind.Tx number) × (32 ≡ length result) }
{
    row_key(parent, Kind::Tx, number)
}

// Coded numbers, written to and read from borrowed bytes: the calls of `VlqWriter` and `VlqReader`.
#![tactic(auto)]

ghost use Rattle.std.specs.Prelude.{◌≡◌};
ghost use Rattle.vlq_core.specs.Zigzag.{zig};
ghost use Rattle.vlq_core.specs.Groups.{enc};
ghost use Rattle.vlq_core.specs.Reading.{read_at, long_of, int_of};
ghost use Rattle.vlq_core.specs.Writing.{written, put_bytes};

use index_types::{Int, Long, Wrote};

// Writes a signed 64-bit number from a position on; where it does not fit, nothing changes.
pub fn put_i64(n: i64, out: &mut [u8], at: usize) -> Wrote
    ensures { written result out.new ≡ put_bytes (enc (zig n)) out.old at }
{
    if !vlq_core::has_room(out.len(), at, vlq_writing::number_len(n)) {
        return Err(refusal::OUTPUT_TOO_SHORT);
    }
    Ok(vlq_writing::emit_i64(n, out, at))
}

// Writes a signed 32-bit number from a position on; where it does not fit, nothing changes.
pub fn put_i32(n: i32, out: &mut [u8], at: usize) -> Wrote
    ensures { written result out.new ≡ put_bytes (enc (zig n)) out.old at }
{
    if !vlq_core::has_room(out.len(), at, vlq_writing::number_len_i32(n)) {
        return Err(refusal::OUTPUT_TOO_SHORT);
    }
    Ok(vlq_writing::emit_i32(n, out, at))
}

// The signed 64-bit number at a position, and the position after it.
pub fn get_i64(src: &[u8], at: usize) -> Long
    ensures { result ≡ long_of (read_at 64 src.now at) }
{
    vlq_reading::get_i64(src, at)
}

// The signed 32-bit number at a position, and the position after it.
pub fn get_i32(src: &[u8], at: usize) -> Int
    ensures { result ≡ int_of (read_at 32 src.now at) }
{
    vlq_reading::get_i32(src, at)
}

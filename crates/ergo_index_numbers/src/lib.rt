// Coded numbers at a position of borrowed bytes; an accepted call moves the position behind the number.
#![tactic(auto)]

ghost use Rattle.std.specs.Prelude.{ℕ, ◌≡◌, List};
ghost use Rattle.vlq_core.specs.Zigzag.{zig};
ghost use Rattle.vlq_core.specs.Groups.{enc};
ghost use Rattle.vlq_core.specs.Reading.{read_at, long_of, int_of};
ghost use Rattle.vlq_core.specs.Writing.{put_bytes};
ghost use Rattle.ergo_index_numbers.specs.Numbers.{write_out, write_by, write_export, number_out, long_export, int_export};

use index_types::Wrote;

// The position goes behind what was written, and the code is the result; a refusal leaves the position.
pub fn moved(wrote: Wrote, at: &mut usize) -> u8
    ensures { (out : List ℕ) → write_out result at.new out ≡ write_by wrote at.old out }
{
    match wrote {
        Ok(next) => {
            *at = next;
            0
        }
        Err(code) => code,
    }
}

// Writes a signed 64-bit number.
#[unsafe(no_mangle)]
pub extern "C" fn ergo_index_put_i64(n: i64, out: &mut [u8], at: &mut usize) -> u8
    ensures { write_out result at.new out.new ≡ write_export at.old (put_bytes (enc (zig n)) out.old at.old) }
{
    let wrote = vlq::put_i64(n, out, *at);
    moved(wrote, at)
}

// Writes a signed 32-bit number.
#[unsafe(no_mangle)]
pub extern "C" fn ergo_index_put_i32(n: i32, out: &mut [u8], at: &mut usize) -> u8
    ensures { write_out result at.new out.new ≡ write_export at.old (put_bytes (enc (zig n)) out.old at.old) }
{
    let wrote = vlq::put_i32(n, out, *at);
    moved(wrote, at)
}

// Reads a signed 64-bit number.
#[unsafe(no_mangle)]
pub extern "C" fn ergo_index_get_i64(src: &[u8], at: &mut usize, n: &mut i64) -> u8
    ensures { number_out result at.new n.new ≡ long_export at.old n.old (long_of (read_at 64 src.now at.old)) }
{
    let read = vlq::get_i64(src, *at);
    match read {
        Ok((number, next)) => {
            *at = next;
            *n = number;
            0
        }
        Err(code) => code,
    }
}

// Reads a signed 32-bit number.
#[unsafe(no_mangle)]
pub extern "C" fn ergo_index_get_i32(src: &[u8], at: &mut usize, n: &mut i32) -> u8
    ensures { number_out result at.new n.new ≡ int_export at.old n.old (int_of (read_at 32 src.now at.old)) }
{
    let read = vlq::get_i32(src, *at);
    match read {
        Ok((number, next)) => {
            *at = next;
            *n = number;
            0
        }
        Err(code) => code,
    }
}

// Coded numbers read: groups of 7 bits, lowest first, in the shortest form only, and the signed number of a coded one.
// Internal: a number of few groups is read by `vlq_short`; the public calls are those of `vlq`.
#![tactic(auto)]

ghost use Rattle.std.specs.Prelude.{◌≡◌, ◌<◌, ◌≤◌, length, drop, Ok};
ghost use Rattle.vlq_core.specs.Zigzag.{zag};
ghost use Rattle.vlq_core.specs.Reading.{dec, shortest, read_at, long_of, int_of};
ghost use Rattle.vlq_core.specs.Answers.{Got};

use index_types::{Int, Long};
use vlq_core::Got;

// The signed number of a coded one.
pub fn unzigzag(coded: u64) -> i64
    ensures { result ≡ zag coded }
{
    let half = (coded / 2) as i64;
    if coded % 2 == 0 { half } else { -1 - half }
}

// The same at 32 bits.
pub fn unzigzag_i32(coded: u32) -> i32
    ensures { result ≡ zag coded }
{
    let half = (coded / 2) as i32;
    if coded % 2 == 0 { half } else { -1 - half }
}

// The groups from a position on: at most nine with the top bit set, and then the last.
fn get_groups(src: &[u8], at: usize) -> Got
    ensures { result ≡ dec 9 (drop at src.now) at }
{
    let mut sum: u64 = 0;
    let mut scale: u64 = 1;
    let mut i = at;
    for _ in 0..9_usize {
        if src.len() <= i {
            return Err(refusal::BYTES_END);
        }
        let b = vlq_core::wide(src[i]);
        if b < 128 {
            return Ok((sum + scale * b, i + 1));
        }
        sum += scale * (b % 128);
        scale *= 128;
        i += 1;
    }
    if src.len() <= i {
        return Err(refusal::BYTES_END);
    }
    let b = vlq_core::wide(src[i]);
    if b < 2 {
        return Ok((sum + scale * b, i + 1));
    }
    Err(refusal::NUMBER_TOO_LARGE)
}

// A number that was read, unless it is padded with zero groups.
fn take_shortest(src: &[u8], at: usize, coded: u64, next: usize) -> Got
    requires { (at < next) × (next ≤ length src.now) }
    ensures { result ≡ shortest src.now at (Ok (coded, next)) }
{
    if next - at == 1 {
        return Ok((coded, next));
    }
    let last = next - 1;
    if src[last] == 0 {
        return Err(refusal::NUMBER_PADDED);
    }
    Ok((coded, next))
}

// The coded 64-bit number at a position.
pub fn get_coded(src: &[u8], at: usize) -> Got
    ensures { result ≡ read_at 64 src.now at }
{
    match get_groups(src, at) {
        Ok((coded, next)) => take_shortest(src, at, coded, next),
        Err(code) => Err(code),
    }
}

// The coded 32-bit number at a position.
pub fn get_coded_32(src: &[u8], at: usize) -> Got
    ensures { result ≡ read_at 32 src.now at }
{
    match get_groups(src, at) {
        Ok((coded, next)) => {
            if coded < 0x1_0000_0000 {
                take_shortest(src, at, coded, next)
            } else {
                Err(refusal::NUMBER_TOO_LARGE)
            }
        }
        Err(code) => Err(code),
    }
}

// The signed 64-bit number at a position.
pub fn get_i64(src: &[u8], at: usize) -> Long
    ensures { result ≡ long_of (read_at 64 src.now at) }
{
    let (coded, next) = get_coded(src, at)?;
    Ok((unzigzag(coded), next))
}

// The signed 32-bit number at a position.
pub fn get_i32(src: &[u8], at: usize) -> Int
    ensures { result ≡ int_of (read_at 32 src.now at) }
{
    match get_coded_32(src, at) {
        Ok((coded, next)) => Ok((unzigzag_i32(coded as u32), next)),
        Err(code) => Err(code),
    }
}

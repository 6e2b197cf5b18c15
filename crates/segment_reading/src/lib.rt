// The parts of a segment row read: lengths, lists, and the spill counts.
// Internal: lists are read into buffers of 512. A whole row is read by `segment_loading`.
#![tactic(auto)]

ghost use Rattle.std.specs.Prelude.{◌≡◌, ◌≤◌};
ghost use Rattle.index_types.specs.Limits.{segment_threshold};
ghost use Rattle.segment_core.specs.Reading.{length_at, numbers_at, list_at, counts_at};
ghost use Rattle.segment_core.specs.Internal.{ReadInto};

use index_types::SEGMENT_THRESHOLD;
use segment_core::{Counts, Part};
use vlq_core::Got;

// The length of a list at a position, checked: not negative, within 512, within the bytes left.
pub fn read_length(row: &[u8], at: usize) -> Got
    ensures { result ≡ length_at row.now at }
{
    match vlq_reading::get_i32(row, at) {
        Ok((n, next)) => {
            if signed::is_negative_i32(n) {
                return Err(refusal::NEGATIVE_LENGTH);
            }
            let k = signed::usize_from_i32(n);
            if SEGMENT_THRESHOLD < k {
                return Err(refusal::LIST_TOO_LONG);
            }
            if row.len() - next < k {
                return Err(refusal::LENGTH_ABOVE_BYTES_LEFT);
            }
            Ok((k as u64, next))
        }
        Err(code) => Err(code),
    }
}

// k numbers from a position on; most have few groups.
fn read_numbers(row: &[u8], at: usize, k: usize, buf: &mut [i64; SEGMENT_THRESHOLD]) -> Part
    requires { k ≤ segment_threshold }
    ensures { ReadInto (numbers_at k row.now at) buf.old result buf.new }
{
    let mut next = at;
    for slot in &mut buf[..k] {
        let short = vlq_short::get_short(row, next);
        let size = short.size;
        if 0 < size {
            *slot = vlq_reading::unzigzag(short.coded);
            next += size;
        } else {
            match vlq_reading::get_i64(row, next) {
                Ok((z, n)) => {
                    *slot = z;
                    next = n;
                }
                Err(code) => {
                    return Err(code);
                }
            }
        }
    }
    Ok((k, next))
}

// A list: a length and its numbers.
pub fn read_list(row: &[u8], at: usize, buf: &mut [i64; SEGMENT_THRESHOLD]) -> Part
    ensures { ReadInto (list_at row.now at) buf.old result buf.new }
{
    match read_length(row, at) {
        Ok((k, n)) => read_numbers(row, n, k as usize, buf),
        Err(code) => Err(code),
    }
}

// The spill counts, both read before either is tested.
pub fn read_counts(row: &[u8], at: usize) -> Counts
    ensures { result ≡ counts_at row.now at }
{
    match vlq_reading::get_i32(row, at) {
        Ok((b, n)) => match vlq_reading::get_i32(row, n) {
            Ok((t, next)) => {
                if signed::is_negative_i32(b) {
                    return Err(refusal::NEGATIVE_SPILL_COUNT_READ);
                }
                if signed::is_negative_i32(t) {
                    return Err(refusal::NEGATIVE_SPILL_COUNT_READ);
                }
                Ok((b, t, next))
            }
            Err(code) => Err(code),
        },
        Err(code) => Err(code),
    }
}

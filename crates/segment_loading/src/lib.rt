// The segment row read into borrowed lists: into buffers of its own first, so that a refusal changes no borrowed list.
// Internal: the readers ask for lists of 512. The public calls are those of `segment`.
#![tactic(auto)]

ghost use Rattle.std.specs.Prelude.{◌≡◌, true, not, ◌||◌, ◌≤◌, eqb, length};
ghost use Rattle.index_types.specs.Limits.{segment_threshold};
ghost use Rattle.stores.specs.Stores.{write};
ghost use Rattle.segment_core.specs.Reading.{segment_at, ended};
ghost use Rattle.segment_core.specs.Loading.{loading, load};

use index_types::{Loaded, SEGMENT_THRESHOLD};

// Whether a segment may end at a position of len bytes.
fn may_end(must: bool, next: usize, len: usize) -> bool
    ensures { result ≡ (not must || eqb next len) }
{
    if must {
        return next == len;
    }
    true
}

// A buffer, copied to the front of a borrowed list.
fn copy_out(src: &[i64; SEGMENT_THRESHOLD], dst: &mut [i64])
    requires { (length src.now ≡ segment_threshold) × (segment_threshold ≤ length dst.old) }
    ensures { dst.new ≡ write 0 src.now dst.old }
{
    dst[..SEGMENT_THRESHOLD].copy_from_slice(src);
}

// A segment at a position, which must end the bytes or may be followed by others.
fn load_segment(row: &[u8], at: usize, must_end: bool, txs: &mut [i64], boxes: &mut [i64]) -> Loaded
    requires { (segment_threshold ≤ length txs.old) × (segment_threshold ≤ length boxes.old) }
    ensures { loading result txs.new boxes.new
        ≡ load (ended must_end (length row.now) (segment_at row.now at)) txs.old boxes.old }
{
    let mut t = [0i64; SEGMENT_THRESHOLD];
    let mut b = [0i64; SEGMENT_THRESHOLD];
    match segment_reading::read_list(row, at, &mut t) {
        Err(code) => Loaded::Refused(code),
        Ok((n, p)) => match segment_reading::read_list(row, p, &mut b) {
            Err(code) => Loaded::Refused(code),
            Ok((m, q)) => match segment_reading::read_counts(row, q) {
                Err(code) => Loaded::Refused(code),
                Ok((x, y, next)) => {
                    if !may_end(must_end, next, row.len()) {
                        return Loaded::Refused(refusal::BYTES_LEFT_OVER);
                    }
                    copy_out(&t, txs);
                    copy_out(&b, boxes);
                    Loaded::Read {
                        txs: n,
                        boxes: m,
                        box_segment_count: x,
                        tx_segment_count: y,
                        next,
                    }
                }
            },
        },
    }
}

// Reads the segment that ends a record, from a position on; 8 where bytes are left over.
pub fn read_last_segment(row: &[u8], at: usize, txs: &mut [i64], boxes: &mut [i64]) -> Loaded
    requires { (segment_threshold ≤ length txs.old) × (segment_threshold ≤ length boxes.old) }
    ensures { loading result txs.new boxes.new
        ≡ load (ended true (length row.now) (segment_at row.now at)) txs.old boxes.old }
{
    load_segment(row, at, true, txs, boxes)
}

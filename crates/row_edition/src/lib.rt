// One row of a spill, in either edition, read for the spill whose row it should be.
#![tactic(auto)]

ghost use Rattle.std.specs.Prelude.{◌≡◌, true, ◌<◌, ◌≤◌, pos, length};
ghost use Rattle.index_types.specs.Limits.{segment_threshold};
ghost use Rattle.segment_core.specs.Reading.{segment_at, ended};
ghost use Rattle.buffer_core.specs.Edition.{numbers_of, row_limit_of, row_under};
ghost use Rattle.row_edition.specs.Internal.{SpillInto};

use index_types::{Loaded, RowEdition, SEGMENT_THRESHOLD};
use segment_id::Kind;

// How many numbers were read, or the refusal code.
pub type SpillRead = Result<usize, u8>;

// Reads the boxes of the segment from a position to the row's end.
fn read_boxes(row: &[u8], at: usize, out: &mut [i64]) -> SpillRead
    requires { length out.old ≡ segment_threshold }
    ensures { SpillInto (numbers_of Kind.Box (ended true (length row.now) (segment_at row.now at))) result out.new }
{
    let mut txs = [0i64; SEGMENT_THRESHOLD];
    match segment_loading::read_last_segment(row, at, &mut txs, out) {
        Loaded::Read { boxes, .. } => Ok(boxes),
        Loaded::Refused(code) => Err(code),
    }
}

// Reads its transactions.
fn read_txs(row: &[u8], at: usize, out: &mut [i64]) -> SpillRead
    requires { length out.old ≡ segment_threshold }
    ensures { SpillInto (numbers_of Kind.Tx (ended true (length row.now) (segment_at row.now at))) result out.new }
{
    let mut boxes = [0i64; SEGMENT_THRESHOLD];
    match segment_loading::read_last_segment(row, at, out, &mut boxes) {
        Loaded::Read { txs, .. } => Ok(txs),
        Loaded::Refused(code) => Err(code),
    }
}

// Reads its numbers of a kind.
fn read_body(kind: Kind, row: &[u8], at: usize, out: &mut [i64]) -> SpillRead
    requires { length out.old ≡ segment_threshold }
    ensures { SpillInto (numbers_of kind (ended true (length row.now) (segment_at row.now at))) result out.new }
{
    match kind {
        Kind::Box => read_boxes(row, at, out),
        Kind::Tx => read_txs(row, at, out),
    }
}

// Reads a row of the second edition: its header, its body, and then whether it says that it is the spill's.
fn read_second_row(
    kind: Kind,
    parent: &[u8; 32],
    number: usize,
    row: &[u8],
    out: &mut [i64],
) -> SpillRead
    requires { (length row.now ≤ row_limit_of RowEdition.Two) × (number < 2147483648) × (length out.old ≡ segment_threshold) }
    ensures { SpillInto (numbers_of kind (row_under RowEdition.Two kind parent.now (pos number) row.now)) result out.new }
{
    let (coded, at) = vlq_reading::get_coded_32(row, row_header::NUMBER_AT)?;
    let n = read_body(kind, row, at, out)?;
    if row_header::says_so(kind, parent, number, row, coded) {
        Ok(n)
    } else {
        Err(refusal::ROW_OF_ANOTHER_SPILL)
    }
}

// Reads the numbers of a kind in a row, for the spill whose row it should be.
pub fn read_row(
    edition: RowEdition,
    kind: Kind,
    parent: &[u8; 32],
    number: usize,
    row: &[u8],
    out: &mut [i64],
) -> SpillRead
    requires { (length row.now ≤ row_limit_of edition) × (number < 2147483648) × (length out.old ≡ segment_threshold) }
    ensures { SpillInto (numbers_of kind (row_under edition kind parent.now (pos number) row.now)) result out.new }
{
    match edition {
        RowEdition::One => read_body(kind, row, 0, out),
        RowEdition::Two => read_second_row(kind, parent, number, row, out),
    }
}

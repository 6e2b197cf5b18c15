// A row turned from one edition into the other, with the parent, the kind and the spill number that are given.
#![tactic(auto)]

ghost use Rattle.std.specs.Prelude.{◌≡◌, true, ◌≤◌, length, drop};
ghost use Rattle.vlq_core.specs.Writing.{written, put_bytes};
ghost use Rattle.index_types.specs.declared.RowEdition.TheVariants.{One, Two};
ghost use Rattle.segment_core.specs.Reading.{segment_at, ended};
ghost use Rattle.row_converters.specs.Convert.{convert};
ghost use Rattle.row_converters.specs.Internal.{body_answer};

use buffer_core::LONGEST_ROW;
use index_types::{Loaded, SEGMENT_THRESHOLD, Wrote};
use refusal::Answer;
use segment_core::ROW_LIMIT;

// Whether the bytes from a position on are a body that ends the row.
fn check_body(row: &[u8], at: usize) -> Answer
    ensures { result ≡ body_answer (ended true (length row.now) (segment_at row.now at)) }
{
    let mut txs = [0i64; SEGMENT_THRESHOLD];
    let mut boxes = [0i64; SEGMENT_THRESHOLD];
    match segment_loading::read_last_segment(row, at, &mut txs, &mut boxes) {
        Loaded::Read { .. } => Ok(()),
        Loaded::Refused(code) => Err(code),
    }
}

// Writes the bytes of a row from a position on.
fn put_body(row: &[u8], at: usize, out: &mut [u8]) -> Wrote
    requires { at ≤ length row.now }
    ensures { written result out.new ≡ put_bytes (drop at row.now) out.old 0 }
{
    let body = &row[at..];
    if out.len() < body.len() {
        return Err(refusal::OUTPUT_TOO_SHORT);
    }
    Ok(stores::put_bytes(body, out, 0))
}

// Writes a row of the first edition as one of the second, at the front of the output; a refused call changes nothing.
pub fn row_to_second(row: &[u8], parent: &[u8; 32], kind: u8, number: i32, out: &mut [u8]) -> Wrote
    ensures { written result out.new ≡ convert One Two parent.now kind number row.now out.old }
{
    if ROW_LIMIT < row.len() {
        return Err(refusal::BUFFERS);
    }
    match check_body(row, 0) {
        Err(code) => Err(code),
        Ok(()) => {
            if !row_fronts::is_kind(kind) {
                return Err(refusal::ROW_OF_ANOTHER_SPILL);
            }
            row_fronts::put_second(row, parent, kind, number, out)
        }
    }
}

// Writes a row of the second edition, which says the three that are given, as one of the first; a refused call changes nothing.
pub fn row_to_first(row: &[u8], parent: &[u8; 32], kind: u8, number: i32, out: &mut [u8]) -> Wrote
    ensures { written result out.new ≡ convert Two One parent.now kind number row.now out.old }
{
    if LONGEST_ROW < row.len() {
        return Err(refusal::BUFFERS);
    }
    match vlq_reading::get_coded_32(row, row_fronts::NUMBER_AT) {
        Err(code) => Err(code),
        Ok((coded, at)) => match check_body(row, at) {
            Err(code) => Err(code),
            Ok(()) => {
                if !row_fronts::says_so(parent, kind, number, row, coded) {
                    return Err(refusal::ROW_OF_ANOTHER_SPILL);
                }
                put_body(row, at, out)
            }
        },
    }
}

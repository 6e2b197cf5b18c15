// The row of a head's first 512 numbers, for boxes and transactions alike: written, and put among the staged spills.
#![tactic(auto)]

ghost use Rattle.std.specs.Prelude.{◌≡◌, ◌+◌, ◌*◌, ◌≤◌, ◌<◌, ◌++◌, pos, length, take};
ghost use Rattle.index_types.specs.Limits.{segment_threshold};
ghost use Rattle.stores.specs.Stores.{Put};
ghost use Rattle.records.specs.Records.{keys, record_of};
ghost use Rattle.records.specs.Find.{find_key};
ghost use Rattle.records.specs.Changes.{slot, count_after, put_record};
ghost use Rattle.segment_core.specs.Row.{row_limit};
ghost use Rattle.buffer_core.specs.Edition.{record_size, row_limit_of, header, spill_bytes};

use index_types::{RowEdition, SEGMENT_THRESHOLD};
use segment_id::Kind;

// Writes the body of the row of the head's first 512 numbers: the position after it.
fn emit_body(kind: Kind, head: &[i64], row: &mut [u8], at: usize) -> usize
    requires { (segment_threshold ≤ length head.now) × (at + row_limit ≤ length row.old) }
    ensures { Put (spill_bytes kind (take segment_threshold head.now)) row.old at result row.new }
{
    match kind {
        Kind::Box => segment_writing::emit_segment(head, 0, head, SEGMENT_THRESHOLD, 0, 0, row, at),
        Kind::Tx => segment_writing::emit_segment(head, SEGMENT_THRESHOLD, head, 0, 0, 0, row, at),
    }
}

// Writes the row of the head's first 512 numbers, and gives its length.
fn emit_row(
    edition: RowEdition,
    kind: Kind,
    parent: &[u8; 32],
    spills: usize,
    head: &[i64],
    row: &mut [u8],
) -> usize
    requires { (spills < 2147483648) × (segment_threshold ≤ length head.now) × (length row.old ≡ row_limit_of RowEdition.Two) }
    ensures { (result ≤ row_limit_of edition)
        × (take result row.new ≡ header edition kind parent.now (pos spills) ++ spill_bytes kind (take segment_threshold head.now)) }
{
    let at = row_header::emit_header(edition, kind, parent, spills, row);
    emit_body(kind, head, row, at)
}

// Puts the row of the head's first 512 numbers among the staged spills, and gives their number.
pub fn stage_row(
    edition: RowEdition,
    kind: Kind,
    parent: &[u8; 32],
    spills: usize,
    head: &[i64],
    staged: &mut [u8],
    count: usize,
    key: &[u8],
) -> usize
    requires { (spills < 2147483648) × (segment_threshold ≤ length head.now) × (length key.now ≡ 32) × (count * record_size edition ≤ length staged.old)
        × (slot (find_key key.now (keys (record_size edition) count staged.old)) count * record_size edition + record_size edition ≤ length staged.old) }
    ensures { (result ≡ count_after (find_key key.now (keys (record_size edition) count staged.old)) count)
        × (staged.new ≡ put_record (record_size edition) count key.now (record_of (record_size edition) key.now
        (header edition kind parent.now (pos spills) ++ spill_bytes kind (take segment_threshold head.now))) staged.old) }
{
    let record = buffer_core::record_size(edition);
    let mut row = [0u8; buffer_core::LONGEST_ROW];
    let n = emit_row(edition, kind, parent, spills, head, &mut row);
    record_changes::put(staged, record, count, key, &row[..n])
}

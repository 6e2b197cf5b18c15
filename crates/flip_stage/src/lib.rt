// A match in a row: the row is written anew with the entry negated, and staged. The hints say where the table's records may stand (`record_hints`).
#![tactic(auto)]

ghost use Rattle.std.specs.Prelude.{◌≡◌, ◌+◌, ◌*◌, ◌≤◌, ◌<◌, pos, length};
ghost use Rattle.records.specs.Find.{row_at};
ghost use Rattle.segment_id.specs.Key.{row_key};
ghost use Rattle.buffer_core.specs.Edition.{numbers_of, record_size, row_limit_of, row_under, edition_of};
ghost use Rattle.buffer_core.specs.Spills.{sources, spill_read};
ghost use Rattle.buffer_core.specs.Flip.{stage_at};
ghost use Rattle.flip_stage.specs.Internal.{RowsReady, Takes, flipped_under, Written, Stages};

use index_types::{Flipped, ListCounts, Loaded, RowEdition, SEGMENT_THRESHOLD};
use records::Place;
use segment_id::Kind;

// Writes a row anew with the entry at a place negated, and gives its length.
fn rewrite(
    edition: RowEdition,
    parent: &[u8; 32],
    number: usize,
    row: &[u8],
    at: usize,
    out: &mut [u8],
) -> usize
    requires { (length row.now ≤ row_limit_of edition) × (number < 2147483648) × (length out.old ≡ row_limit_of RowEdition.Two)
        × Takes (numbers_of Kind.Box (row_under edition Kind.Box parent.now (pos number) row.now)) at }
    ensures { Written edition (flipped_under edition parent.now number row.now at) result out.new }
{
    let start = row_header::body_start(edition, row);
    let mut txs = [0i64; SEGMENT_THRESHOLD];
    let mut boxes = [0i64; SEGMENT_THRESHOLD];
    match segment_loading::read_last_segment(row, start, &mut txs, &mut boxes) {
        Loaded::Read {
            txs: n,
            boxes: m,
            box_segment_count: b,
            tx_segment_count: t,
            ..
        } => {
            entry_flips::flip_at(&mut boxes, at);
            let o = row_header::emit_header(edition, Kind::Box, parent, number, out);
            segment_writing::emit_segment(&txs, n, &boxes, m, b, t, out, o)
        }
        Loaded::Refused(_) => 0,
    }
}

// Writes the row of the record with an index anew.
fn rewrite_record(
    edition: RowEdition,
    parent: &[u8; 32],
    number: usize,
    list: &[u8],
    index: usize,
    at: usize,
    out: &mut [u8],
) -> usize
    requires { (index * record_size edition + record_size edition ≤ length list.now) × (number < 2147483648) × (length out.old ≡ row_limit_of RowEdition.Two)
        × Takes (numbers_of Kind.Box (row_under edition Kind.Box parent.now (pos number) (row_at (record_size edition) index list.now))) at }
    ensures { Written edition (flipped_under edition parent.now number (row_at (record_size edition) index list.now) at) result out.new }
{
    let size = buffer_core::record_size(edition);
    let row = records::row_part(list, index * size, size);
    rewrite(edition, parent, number, row, at, out)
}

// Stages the row of a spill number, whose key is given, with the entry at a place negated.
pub fn stage_under(
    edition: RowEdition,
    parent: &[u8; 32],
    number: usize,
    key: &[u8],
    at: usize,
    staged_counts: ListCounts,
    staged: &mut [u8],
    table_count: usize,
    table: &[u8],
    hints: &[u16],
) -> Flipped
    requires { RowsReady edition staged_counts staged.old table_count table.now × (number < 2147483648) × (key.now ≡ row_key parent.now Kind.Box (pos number)) × (length key.now ≡ 32)
        × Takes (spill_read (edition_of edition) Kind.Box (sources parent.now staged.old staged_counts.count table.now table_count) number) at }
    ensures { Stages edition (stage_at (edition_of edition) (sources parent.now staged.old staged_counts.count table.now table_count) staged_counts.capacity number at)
        staged_counts staged.old result staged.new }
{
    let held = staged_counts.count;
    let capacity = staged_counts.capacity;
    let size = buffer_core::record_size(edition);
    let mut row = [0u8; buffer_core::LONGEST_ROW];
    let place = record_hints::locate_hinted(staged, held, table, table_count, size, key, hints);
    match place {
        Place::Staged(i) => {
            let n = rewrite_record(edition, parent, number, staged, i, at, &mut row);
            let count = record_changes::put(staged, size, held, key, &row[..n]);
            Ok(ListCounts { count, capacity })
        }
        Place::Table(i) => {
            if capacity <= held {
                return Err(refusal::STAGING_FULL);
            }
            let n = rewrite_record(edition, parent, number, table, i, at, &mut row);
            let count = record_changes::put(staged, size, held, key, &row[..n]);
            Ok(ListCounts { count, capacity })
        }
        Place::Missing => Err(refusal::ROW_MISSING),
    }
}

// Stages the row of a spill number with the entry at a place negated.
pub fn stage(
    edition: RowEdition,
    parent: &[u8; 32],
    number: usize,
    at: usize,
    staged_counts: ListCounts,
    staged: &mut [u8],
    table_count: usize,
    table: &[u8],
    hints: &[u16],
) -> Flipped
    requires { RowsReady edition staged_counts staged.old table_count table.now × (number < 2147483648)
        × Takes (spill_read (edition_of edition) Kind.Box (sources parent.now staged.old staged_counts.count table.now table_count) number) at }
    ensures { Stages edition (stage_at (edition_of edition) (sources parent.now staged.old staged_counts.count table.now table_count) staged_counts.capacity number at)
        staged_counts staged.old result staged.new }
{
    let key = spill_rows::spill_key(Kind::Box, parent, number);
    stage_under(
        edition,
        parent,
        number,
        &key,
        at,
        staged_counts,
        staged,
        table_count,
        table,
        hints,
    )
}

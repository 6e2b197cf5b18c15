// The rows of a parent's spills, in either edition: the key of a spill, its row, and its row checked. A row is looked for among the staged spills, then in
// the table.
#![tactic(auto)]

ghost use Rattle.std.specs.Prelude.{◌≡◌, true, ◌*◌, ◌<◌, ◌≤◌, pos, length};
ghost use Rattle.index_types.specs.Limits.{segment_threshold};
ghost use Rattle.records.specs.Records.{keys};
ghost use Rattle.records.specs.Find.{distinct};
ghost use Rattle.segment_id.specs.Key.{row_key};
ghost use Rattle.segment_id.specs.declared.Kind.TheVariants.{Box};
ghost use Rattle.buffer_core.specs.Edition.{edition_of, record_size};
ghost use Rattle.buffer_core.specs.Spills.{sources, spill_read};
ghost use Rattle.buffer_core.specs.Flip.{row_checked};
ghost use Rattle.row_edition.specs.Internal.{SpillInto};
ghost use Rattle.spill_rows.specs.Internal.{CheckedInto};

use index_types::{RowEdition, SEGMENT_THRESHOLD};
use records::Place;
use row_edition::SpillRead;
use segment_id::Kind;

// A row's numbers passed the checks, or its refusal code.
pub type Read = Result<(), u8>;

// The key of a spill number.
pub fn spill_key(kind: Kind, parent: &[u8; 32], number: usize) -> [u8; 32]
    requires { number < 2147483648 }
    ensures { (result ≡ row_key parent.now kind (pos number)) × (length result ≡ 32) }
{
    segment_id::row_key(parent, kind, signed::i32_from_usize(number))
}

// Reads the numbers of a kind in the row of a spill number, whose key is given. The hints say where the table's records may stand (`record_hints`).
pub fn read_under<'a>(
    edition: RowEdition,
    kind: Kind,
    parent: &[u8; 32],
    number: usize,
    key: &[u8],
    staged: &'a [u8],
    staged_count: usize,
    table: &'a [u8],
    table_count: usize,
    hints: &[u16],
    out: &mut [i64],
) -> SpillRead
    requires { (staged_count * record_size edition ≤ length staged.now) × (table_count * record_size edition ≤ length table.now) × (number < 2147483648)
        × (length out.old ≡ segment_threshold) × (key.now ≡ row_key parent.now kind (pos number)) × (length key.now ≡ 32)
        × (distinct (keys (record_size edition) table_count table.now) ≡ true) }
    ensures { SpillInto (spill_read (edition_of edition) kind (sources parent.now staged.now staged_count table.now table_count) number)
        result out.new }
{
    let size = buffer_core::record_size(edition);
    let place = record_hints::locate_hinted(
        staged,
        staged_count,
        table,
        table_count,
        size,
        key,
        hints,
    );
    match place {
        Place::Staged(i) => {
            let row = records::row_part(staged, i * size, size);
            row_edition::read_row(edition, kind, parent, number, row, out)
        }
        Place::Table(i) => {
            let row = records::row_part(table, i * size, size);
            row_edition::read_row(edition, kind, parent, number, row, out)
        }
        Place::Missing => Err(refusal::ROW_MISSING),
    }
}

// Reads the row of a spill number, whose key is given: 512 numbers in order.
pub fn read_checked_under<'a>(
    edition: RowEdition,
    parent: &[u8; 32],
    number: usize,
    key: &[u8],
    staged: &'a [u8],
    staged_count: usize,
    table: &'a [u8],
    table_count: usize,
    hints: &[u16],
    out: &mut [i64],
) -> Read
    requires { (staged_count * record_size edition ≤ length staged.now) × (table_count * record_size edition ≤ length table.now) × (number < 2147483648)
        × (length out.old ≡ segment_threshold) × (key.now ≡ row_key parent.now Box (pos number)) × (length key.now ≡ 32)
        × (distinct (keys (record_size edition) table_count table.now) ≡ true) }
    ensures { CheckedInto (row_checked (edition_of edition) (sources parent.now staged.now staged_count table.now table_count) number)
        result out.new }
{
    let read = read_under(
        edition,
        Kind::Box,
        parent,
        number,
        key,
        staged,
        staged_count,
        table,
        table_count,
        hints,
        out,
    );
    match read {
        Ok(n) => {
            if n != SEGMENT_THRESHOLD {
                return Err(refusal::ROW_OUT_OF_ORDER);
            }
            if entry_order::order_ok(out, SEGMENT_THRESHOLD) {
                Ok(())
            } else {
                Err(refusal::ROW_OUT_OF_ORDER)
            }
        }
        Err(code) => Err(code),
    }
}

// Reads the row of a spill number: 512 numbers in order.
pub fn read_checked<'a>(
    edition: RowEdition,
    parent: &[u8; 32],
    number: usize,
    staged: &'a [u8],
    staged_count: usize,
    table: &'a [u8],
    table_count: usize,
    hints: &[u16],
    out: &mut [i64],
) -> Read
    requires { (staged_count * record_size edition ≤ length staged.now) × (table_count * record_size edition ≤ length table.now) × (number < 2147483648)
        × (length out.old ≡ segment_threshold) × (distinct (keys (record_size edition) table_count table.now) ≡ true) }
    ensures { CheckedInto (row_checked (edition_of edition) (sources parent.now staged.now staged_count table.now table_count) number)
        result out.new }
{
    let key = spill_key(Kind::Box, parent, number);
    read_checked_under(
        edition,
        parent,
        number,
        &key,
        staged,
        staged_count,
        table,
        table_count,
        hints,
        out,
    )
}

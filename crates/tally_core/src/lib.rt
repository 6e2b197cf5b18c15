// Tally, once refusal 25 has passed: how many entries of a parent's boxes are unspent, and how many spent.
#![tactic(auto)]

ghost use Rattle.std.specs.Prelude.{◌≡◌, true, ◌*◌, ◌≤◌, ◌<◌, length, take};
ghost use Rattle.index_types.specs.Limits.{segment_threshold};
ghost use Rattle.records.specs.Records.{keys};
ghost use Rattle.records.specs.Find.{distinct};
ghost use Rattle.buffer_core.specs.Edition.{edition_of, record_size};
ghost use Rattle.buffer_core.specs.Spills.{sources};
ghost use Rattle.buffer_core.specs.Flip.{row_checked};
ghost use Rattle.buffer_core.specs.Tally.{tally_core};
ghost use Rattle.flip_core.specs.Internal.{FlipReady};
ghost use Rattle.row_tallies.specs.Internal.{tally_rows};

pub use entry_tallies::plus;
use index_types::{HeadCounts, ListCounts, RowEdition, Tallied, Tally};
use record_hints::{FEW_RECORDS, HINTS};
pub use row_tallies::check_rows;

// The entries of all rows, on top of those of the head. Where the records of a larger table stand is noted first.
fn count_spills<'a>(
    edition: RowEdition,
    parent: &[u8; 32],
    spills: usize,
    so_far: Tally,
    staged: &'a [u8],
    staged_count: usize,
    table: &'a [u8],
    table_count: usize,
) -> Tallied
    requires { (staged_count * record_size edition ≤ length staged.now) × (table_count * record_size edition ≤ length table.now) × (spills < 2147483648)
        × (so_far.unspent ≤ segment_threshold) × (so_far.spent ≤ segment_threshold) × (so_far.unknown ≤ segment_threshold) × (distinct (keys (record_size edition) table_count table.now) ≡ true) }
    ensures { result ≡ tally_rows (row_checked (edition_of edition) (sources parent.now staged.now staged_count table.now table_count)) 0 spills so_far }
{
    if table_count <= FEW_RECORDS {
        let none = [0u16; 1];
        return row_tallies::count_rows(
            edition,
            parent,
            spills,
            so_far,
            staged,
            staged_count,
            table,
            table_count,
            &none[..0],
        );
    }
    let mut hints = [0u16; HINTS];
    let size = buffer_core::record_size(edition);
    record_hints::note_places(table, size, table_count, &mut hints);
    row_tallies::count_rows(
        edition,
        parent,
        spills,
        so_far,
        staged,
        staged_count,
        table,
        table_count,
        &hints,
    )
}

// 10, 11, then the head's entries and the rows.
pub fn tally<'a>(
    edition: RowEdition,
    parent: &[u8; 32],
    counts: HeadCounts,
    staged_counts: ListCounts,
    staged: &'a [u8],
    table_counts: ListCounts,
    table: &'a [u8],
    head: &[i64],
) -> Tallied
    requires { FlipReady edition counts staged_counts staged.now table_counts table.now head.now }
    ensures { result ≡ tally_core (edition_of edition) (sources parent.now staged.now staged_counts.count table.now table_counts.count)
        counts.spills (take counts.len head.now) }
{
    let len = counts.len;
    let spills = counts.spills;
    if !entry_order::order_ok(head, len) {
        return Err(refusal::HEAD_OUT_OF_ORDER);
    }
    if signed::is_negative_i32(spills) {
        return Err(refusal::NEGATIVE_SPILL_COUNT);
    }
    count_spills(
        edition,
        parent,
        signed::usize_from_i32(spills),
        entry_tallies::tally_entries(head, len),
        staged,
        staged_counts.count,
        table,
        table_counts.count,
    )
}

// The rows of a spend or an unspend, behind the head: the halving, the walk, and the match. The hints say where the table's records may stand (`record_hints`).
#![tactic(auto)]

ghost use Rattle.std.specs.Prelude.{◌<◌};
ghost use Rattle.buffer_core.specs.Edition.{edition_of};
ghost use Rattle.buffer_core.specs.Spills.{sources};
ghost use Rattle.buffer_core.specs.Flip.{in_rows};
ghost use Rattle.flip_stage.specs.Internal.{RowsReady, Stages};

use buffer_core::Walk;
use index_types::{Flipped, ListCounts, RowEdition};

// The halving, the walk, and the match.
fn flip_hinted(
    edition: RowEdition,
    parent: &[u8; 32],
    target: u64,
    spend: bool,
    spills: usize,
    seen: bool,
    staged_counts: ListCounts,
    staged: &mut [u8],
    table_count: usize,
    table: &[u8],
    hints: &[u16],
) -> Flipped
    requires { RowsReady edition staged_counts staged.old table_count table.now × (spills < 2147483648) × (target < 9223372036854775808) }
    ensures { Stages edition (in_rows (edition_of edition) (sources parent.now staged.old staged_counts.count table.now table_count) staged_counts.capacity target spend spills seen)
        staged_counts staged.old result staged.new }
{
    let held = staged_counts.count;
    let found = flip_search::search(
        edition,
        parent,
        staged,
        held,
        table,
        table_count,
        hints,
        target,
        0,
        spills,
    );
    match found {
        Ok(low) => {
            let walk = flip_walk::walk_down(
                edition,
                parent,
                staged,
                held,
                table,
                table_count,
                hints,
                target,
                spend,
                low,
                seen,
            );
            match walk {
                Walk::Hit(number, at) => flip_stage::stage(
                    edition,
                    parent,
                    number,
                    at,
                    staged_counts,
                    staged,
                    table_count,
                    table,
                    hints,
                ),
                Walk::Ended(saw) => {
                    let code = flip_refusals::no_entry(saw);
                    Err(code)
                }
                Walk::Failed(code) => Err(code),
            }
        }
        Err(code) => Err(code),
    }
}

// The same without hints that came from outside: where the records of the table stand is noted first.
fn flip_noted(
    edition: RowEdition,
    parent: &[u8; 32],
    target: u64,
    spend: bool,
    spills: usize,
    seen: bool,
    staged_counts: ListCounts,
    staged: &mut [u8],
    table_count: usize,
    table: &[u8],
) -> Flipped
    requires { RowsReady edition staged_counts staged.old table_count table.now × (spills < 2147483648) × (target < 9223372036854775808) }
    ensures { Stages edition (in_rows (edition_of edition) (sources parent.now staged.old staged_counts.count table.now table_count) staged_counts.capacity target spend spills seen)
        staged_counts staged.old result staged.new }
{
    let mut hints = [0u16; record_hints::HINTS];
    let size = buffer_core::record_size(edition);
    record_hints::note_places(table, size, table_count, &mut hints);
    flip_hinted(
        edition,
        parent,
        target,
        spend,
        spills,
        seen,
        staged_counts,
        staged,
        table_count,
        table,
        &hints,
    )
}

// The rows, if there are any, by the hints that are there; for a table of many records there are always some.
pub fn flip_rows(
    edition: RowEdition,
    parent: &[u8; 32],
    target: u64,
    spend: bool,
    spills: usize,
    seen: bool,
    staged_counts: ListCounts,
    staged: &mut [u8],
    table_count: usize,
    table: &[u8],
    hints: &[u16],
) -> Flipped
    requires { RowsReady edition staged_counts staged.old table_count table.now × (spills < 2147483648) × (target < 9223372036854775808) }
    ensures { Stages edition (in_rows (edition_of edition) (sources parent.now staged.old staged_counts.count table.now table_count) staged_counts.capacity target spend spills seen)
        staged_counts staged.old result staged.new }
{
    let code = flip_refusals::no_entry(seen);
    if spills == 0 {
        return Err(code);
    }
    if hints.len() == 0 {
        if record_hints::FEW_RECORDS < table_count {
            return flip_noted(
                edition,
                parent,
                target,
                spend,
                spills,
                seen,
                staged_counts,
                staged,
                table_count,
                table,
            );
        }
    }
    flip_hinted(
        edition,
        parent,
        target,
        spend,
        spills,
        seen,
        staged_counts,
        staged,
        table_count,
        table,
        hints,
    )
}

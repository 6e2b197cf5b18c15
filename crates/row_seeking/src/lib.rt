// The first row that is neither staged nor among the records borrowed as the table: of one spill, of the spills from 0 up, of a halving and its walk.
#![tactic(auto)]

ghost use Rattle.std.specs.Prelude.{◌≡◌, ◌<◌, [], ◌∷◌};
ghost use Rattle.segment_id.specs.declared.Kind.TheVariants.{Box};
ghost use Rattle.buffer_core.specs.Edition.{edition_of};
ghost use Rattle.buffer_core.specs.Spills.{sources};
ghost use Rattle.buffer_core.specs.Flip.{look_at, row_checked};
ghost use Rattle.working_set.specs.Reads.{walk_reads, up_reads};
ghost use Rattle.row_seeking.specs.Seeking.{among};
ghost use Rattle.row_seeking.specs.Internal.{WorkReady, reads_between};

use buffer_core::Look;
use index_types::RowEdition;
use records::Place;
use segment_id::Kind;

// Whether the row of a spill number is missing.
pub fn ask<'a>(
    edition: RowEdition,
    kind: Kind,
    parent: &[u8; 32],
    number: usize,
    staged: &'a [u8],
    staged_count: usize,
    table: &'a [u8],
    table_count: usize,
    hints: &[u16],
) -> Option<usize>
    requires { WorkReady edition (sources parent.now staged.now staged_count table.now table_count) × (number < 2147483648) }
    ensures { result ≡ among (edition_of edition) kind (sources parent.now staged.now staged_count table.now table_count) (number ∷ []) }
{
    let key = spill_rows::spill_key(kind, parent, number);
    let size = buffer_core::record_size(edition);
    let place = record_hints::locate_hinted(
        staged,
        staged_count,
        table,
        table_count,
        size,
        &key,
        hints,
    );
    match place {
        Place::Staged(_) => None,
        Place::Table(_) => None,
        Place::Missing => Some(number),
    }
}

// The first missing row from spill 0 up.
pub fn seek_up<'a>(
    edition: RowEdition,
    parent: &[u8; 32],
    spills: usize,
    staged: &'a [u8],
    staged_count: usize,
    table: &'a [u8],
    table_count: usize,
    hints: &[u16],
) -> Option<usize>
    requires { WorkReady edition (sources parent.now staged.now staged_count table.now table_count) × (spills < 2147483648) }
    ensures { result ≡ among (edition_of edition) Box (sources parent.now staged.now staged_count table.now table_count)
        (up_reads (row_checked (edition_of edition) (sources parent.now staged.now staged_count table.now table_count)) 0 spills) }
{
    for n in 0..spills {
        let lead = flip_search::lead_of(
            edition,
            parent,
            n,
            staged,
            staged_count,
            table,
            table_count,
            hints,
        );
        match lead {
            Ok(_) => {}
            Err(_) => {
                return ask(
                    edition,
                    Kind::Box,
                    parent,
                    n,
                    staged,
                    staged_count,
                    table,
                    table_count,
                    hints,
                );
            }
        }
    }
    None
}

// The first missing row of the walk down from a spill number.
fn seek_down<'a>(
    edition: RowEdition,
    parent: &[u8; 32],
    staged: &'a [u8],
    staged_count: usize,
    table: &'a [u8],
    table_count: usize,
    hints: &[u16],
    target: u64,
    spend: bool,
    from: usize,
) -> Option<usize>
    requires { WorkReady edition (sources parent.now staged.now staged_count table.now table_count) × (from < 2147483648) }
    ensures { result ≡ among (edition_of edition) Box (sources parent.now staged.now staged_count table.now table_count)
        (walk_reads (look_at (edition_of edition) (sources parent.now staged.now staged_count table.now table_count) target spend) from) }
{
    for low in (0..from).rev() {
        let look = flip_walk::look_at(
            edition,
            parent,
            low,
            staged,
            staged_count,
            table,
            table_count,
            hints,
            target,
            spend,
        );
        match look {
            Look::Take(_) => {
                return None;
            }
            Look::Stop(_) => {
                return None;
            }
            Look::Next(_) => {}
            Look::Fail(_) => {
                return ask(
                    edition,
                    Kind::Box,
                    parent,
                    low,
                    staged,
                    staged_count,
                    table,
                    table_count,
                    hints,
                );
            }
        }
    }
    None
}

// The first missing row of the halving over the spills, then of the walk.
pub fn seek_rows<'a>(
    edition: RowEdition,
    parent: &[u8; 32],
    staged: &'a [u8],
    staged_count: usize,
    table: &'a [u8],
    table_count: usize,
    hints: &[u16],
    target: u64,
    spend: bool,
    spills: usize,
) -> Option<usize>
    requires { WorkReady edition (sources parent.now staged.now staged_count table.now table_count) × (spills < 2147483648) }
    ensures { result ≡ among (edition_of edition) Box (sources parent.now staged.now staged_count table.now table_count)
        (reads_between (edition_of edition) (sources parent.now staged.now staged_count table.now table_count) target spend 0 spills) }
{
    let mut low = 0;
    let mut high = spills;
    while low < high {
        let middle = low + (high - low) / 2;
        let lead = flip_search::lead_of(
            edition,
            parent,
            middle,
            staged,
            staged_count,
            table,
            table_count,
            hints,
        );
        match lead {
            Ok(first) => {
                if first <= target {
                    low = middle + 1;
                } else {
                    high = middle;
                }
            }
            Err(_) => {
                return ask(
                    edition,
                    Kind::Box,
                    parent,
                    middle,
                    staged,
                    staged_count,
                    table,
                    table_count,
                    hints,
                );
            }
        }
    }
    seek_down(
        edition,
        parent,
        staged,
        staged_count,
        table,
        table_count,
        hints,
        target,
        spend,
        low,
    )
}

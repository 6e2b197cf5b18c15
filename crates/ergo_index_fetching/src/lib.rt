// A row that was fetched, put into the records that are borrowed as the table.
#![tactic(auto)]

ghost use Rattle.std.specs.Prelude.{◌≡◌};
ghost use Rattle.ergo_index_lists.specs.Lists.{named_edition};
ghost use Rattle.ergo_index_fetching.specs.Fetching.{put_out, put_call};

use index_types::ListCounts;

// Puts a row under its key. The number of records goes to the out.
#[unsafe(no_mangle)]
pub extern "C" fn ergo_index_put_row<'a>(
    second_edition: bool,
    key: &[u8; 32],
    row: &'a [u8],
    table_count: &mut usize,
    table_capacity: usize,
    table: &mut [u8],
) -> u8
    ensures { put_out result table_count.new table.new
        ≡ put_call (named_edition second_edition) key.now row.now table_count.old table_capacity table.old }
{
    let counts = ListCounts {
        count: *table_count,
        capacity: table_capacity,
    };
    let put = row_fetching::put_row(
        ergo_index_lists::named_edition(second_edition),
        key,
        row,
        counts,
        table,
    );
    match put {
        Ok(after) => {
            *table_count = after.count;
            0
        }
        Err(code) => code,
    }
}

// The walk down a parent's rows from a spill number on: what each row shows, up to the entry to take or the end of the walk.
// It takes hints of where the table's records may stand (`record_hints`).
#![tactic(auto)]

ghost use Rattle.std.specs.Prelude.{◌≡◌, true, ◌||◌, ◌*◌, ◌≤◌, ◌<◌, ltb, length, take};
ghost use Rattle.index_types.specs.Limits.{segment_threshold};
ghost use Rattle.records.specs.Records.{keys};
ghost use Rattle.records.specs.Find.{distinct};
ghost use Rattle.entries.specs.Order.{order_ok};
ghost use Rattle.buffer_core.specs.Edition.{edition_of, record_size};
ghost use Rattle.buffer_core.specs.Spills.{sources};
ghost use Rattle.buffer_core.specs.Flip.{look_past, look_in, look_at, walk_from};

use buffer_core::{Look, Walk};
use entries::Position;
use index_types::{RowEdition, SEGMENT_THRESHOLD};

// What a row shows that has no entry to take.
fn look_past(first: u64, target: u64, seen: bool) -> Look
    ensures { result ≡ look_past (ltb first target) seen }
{
    if first < target {
        Look::Stop(seen)
    } else {
        Look::Next(seen)
    }
}

// What the numbers of a row show, which are in order.
fn look_in(row: &[i64], target: u64, spend: bool) -> Look
    requires { (length row.now ≡ segment_threshold) × (order_ok (take segment_threshold row.now) ≡ true) }
    ensures { result ≡ look_in row.now target spend }
{
    if signed::magnitude(row[511]) < target {
        return Look::Stop(false);
    }
    let first = signed::magnitude(row[0]);
    let position = entry_flips::flip_position(row, SEGMENT_THRESHOLD, target, spend);
    match position {
        Position::At(i) => Look::Take(i),
        Position::Seen => look_past(first, target, true),
        Position::Absent => look_past(first, target, false),
    }
}

// What the row of a spill number shows.
pub fn look_at<'a>(
    edition: RowEdition,
    parent: &[u8; 32],
    number: usize,
    staged: &'a [u8],
    staged_count: usize,
    table: &'a [u8],
    table_count: usize,
    hints: &[u16],
    target: u64,
    spend: bool,
) -> Look
    requires { (staged_count * record_size edition ≤ length staged.now) × (table_count * record_size edition ≤ length table.now) × (number < 2147483648)
        × (distinct (keys (record_size edition) table_count table.now) ≡ true) }
    ensures { result ≡ look_at (edition_of edition) (sources parent.now staged.now staged_count table.now table_count) target spend number }
{
    let mut row = [0i64; SEGMENT_THRESHOLD];
    let read = spill_rows::read_checked(
        edition,
        parent,
        number,
        staged,
        staged_count,
        table,
        table_count,
        hints,
        &mut row,
    );
    match read {
        Ok(()) => look_in(&row, target, spend),
        Err(code) => Look::Fail(code),
    }
}

// Whether one of two tests passed.
pub fn either(a: bool, b: bool) -> bool
    ensures { result ≡ (a || b) }
{
    if a { true } else { b }
}

// The rows below a spill number, the newest first.
pub fn walk_down<'a>(
    edition: RowEdition,
    parent: &[u8; 32],
    staged: &'a [u8],
    staged_count: usize,
    table: &'a [u8],
    table_count: usize,
    hints: &[u16],
    target: u64,
    spend: bool,
    from: usize,
    seen: bool,
) -> Walk
    requires { (staged_count * record_size edition ≤ length staged.now) × (table_count * record_size edition ≤ length table.now) × (from < 2147483648)
        × (distinct (keys (record_size edition) table_count table.now) ≡ true) }
    ensures { result ≡ walk_from (look_at (edition_of edition) (sources parent.now staged.now staged_count table.now table_count) target spend) from seen }
{
    let mut saw = seen;
    for low in (0..from).rev() {
        let look = look_at(
            edition,
            parent,
            low,
            staged,
            staged_count,
            table,
            table_count,
            hints,
            target,
            spend,
        );
        match look {
            Look::Take(i) => {
                return Walk::Hit(low, i);
            }
            Look::Stop(s) => {
                return Walk::Ended(either(saw, s));
            }
            Look::Next(s) => {
                saw = either(saw, s);
            }
            Look::Fail(code) => {
                return Walk::Failed(code);
            }
        }
    }
    Walk::Ended(saw)
}

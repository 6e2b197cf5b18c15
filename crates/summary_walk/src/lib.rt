// The walk over the lines of a summary, from a line down: a row is read only if its line's last absolute value is not below the target, and where it has the
// entry it is staged at once, under the key that it was found by.
#![tactic(auto)]

ghost use Rattle.std.specs.Prelude.{◌≡◌, cond, ◌+◌, ◌*◌, ◌≤◌, ◌<◌, ltb, length, Err};
ghost use Rattle.index_types.specs.Limits.{summary_line};
ghost use Rattle.buffer_core.specs.Edition.{edition_of};
ghost use Rattle.buffer_core.specs.Spills.{sources};
ghost use Rattle.buffer_core.specs.Flip.{walk_from, row_checked};
ghost use Rattle.flip_stage.specs.Internal.{RowsReady};
ghost use Rattle.summary_core.specs.Flip.{look_in_row, line_look, after_lines};
ghost use Rattle.summary_take.specs.Internal.{StagesLines};
ghost use Rattle.summary_walk.specs.Internal.{past, Tries};

use entries::Position;
use index_types::{Flipped, ListCounts, RowEdition, SEGMENT_THRESHOLD};
use segment_id::Kind;

// What a line comes to: the call ends with an answer; the walk stops, or goes on, and whether the target was seen.
#[derive(Clone, Copy)]
pub enum Tried {
    Ended(Flipped),
    Stop(bool),
    Next(bool),
}

// What a row comes to that has no entry to take.
fn look_past(first: u64, target: u64, seen: bool) -> Tried
    ensures { result ≡ past (ltb first target) seen }
{
    if first < target {
        Tried::Stop(seen)
    } else {
        Tried::Next(seen)
    }
}

// Reads the row of a spill number and takes its entry, if it has one. `first` is the first absolute value of the row's line.
fn search_row(
    edition: RowEdition,
    parent: &[u8; 32],
    number: usize,
    first: u64,
    target: u64,
    spend: bool,
    staged_counts: ListCounts,
    staged: &mut [u8],
    table_count: usize,
    table: &[u8],
    summary: &mut [u64],
) -> Tried
    requires { RowsReady edition staged_counts staged.old table_count table.now × (number < 2147483648) × (target < 9223372036854775808)
        × (number * summary_line + summary_line ≤ length summary.old) }
    ensures { Tries edition (sources parent.now staged.old staged_counts.count table.now table_count)
        (look_in_row (row_checked (edition_of edition) (sources parent.now staged.old staged_counts.count table.now table_count) number) target spend (ltb first target))
        number staged_counts staged.old summary.old result staged.new summary.new }
{
    let held = staged_counts.count;
    let key = spill_rows::spill_key(Kind::Box, parent, number);
    let none = [0u16; 1];
    let mut row = [0i64; SEGMENT_THRESHOLD];
    let read = spill_rows::read_checked_under(
        edition,
        parent,
        number,
        &key,
        staged,
        held,
        table,
        table_count,
        &none[..0],
        &mut row,
    );
    match read {
        Ok(()) => {
            let position = entry_flips::flip_position(&row, SEGMENT_THRESHOLD, target, spend);
            match position {
                Position::At(i) => Tried::Ended(summary_take::take_entry(
                    edition,
                    parent,
                    number,
                    &key,
                    i,
                    &mut row,
                    staged_counts,
                    staged,
                    table_count,
                    table,
                    summary,
                )),
                Position::Seen => look_past(first, target, true),
                Position::Absent => look_past(first, target, false),
            }
        }
        Err(code) => Tried::Ended(Err(code)),
    }
}

// A line, and its row if it is searched.
fn try_line(
    edition: RowEdition,
    parent: &[u8; 32],
    number: usize,
    target: u64,
    spend: bool,
    staged_counts: ListCounts,
    staged: &mut [u8],
    table_count: usize,
    table: &[u8],
    summary: &mut [u64],
) -> Tried
    requires { RowsReady edition staged_counts staged.old table_count table.now × (number < 2147483648) × (target < 9223372036854775808)
        × (number * summary_line + summary_line ≤ length summary.old) }
    ensures { Tries edition (sources parent.now staged.old staged_counts.count table.now table_count)
        (line_look (edition_of edition) (sources parent.now staged.old staged_counts.count table.now table_count) summary.old target spend number)
        number staged_counts staged.old summary.old result staged.new summary.new }
{
    let first = summary_lines::number_at(summary, number, 0);
    let last = summary_lines::number_at(summary, number, 1);
    if last < target {
        return Tried::Stop(false);
    }
    search_row(
        edition,
        parent,
        number,
        first,
        target,
        spend,
        staged_counts,
        staged,
        table_count,
        table,
        summary,
    )
}

// The answer of a walk that took no entry.
fn no_entry(seen: bool) -> Flipped
    ensures { result ≡ Err (cond seen 14 15) }
{
    Err(flip_refusals::no_entry(seen))
}

// The lines below a number, the newest first.
pub fn walk_down(
    edition: RowEdition,
    parent: &[u8; 32],
    target: u64,
    spend: bool,
    from: usize,
    seen: bool,
    staged_counts: ListCounts,
    staged: &mut [u8],
    table_count: usize,
    table: &[u8],
    summary: &mut [u64],
) -> Flipped
    requires { RowsReady edition staged_counts staged.old table_count table.now × (from < 2147483648) × (target < 9223372036854775808)
        × (from * summary_line ≤ length summary.old) }
    ensures { StagesLines edition (after_lines (edition_of edition) (sources parent.now staged.old staged_counts.count table.now table_count)
        staged_counts.capacity summary.old
        (walk_from (line_look (edition_of edition) (sources parent.now staged.old staged_counts.count table.now table_count) summary.old target spend) from seen))
        staged_counts staged.old result staged.new summary.new }
{
    let mut saw = seen;
    for low in (0..from).rev() {
        let tried = try_line(
            edition,
            parent,
            low,
            target,
            spend,
            staged_counts,
            staged,
            table_count,
            table,
            summary,
        );
        match tried {
            Tried::Ended(answer) => {
                return answer;
            }
            Tried::Stop(s) => {
                return no_entry(flip_walk::either(saw, s));
            }
            Tried::Next(s) => {
                saw = flip_walk::either(saw, s);
            }
        }
    }
    no_entry(saw)
}

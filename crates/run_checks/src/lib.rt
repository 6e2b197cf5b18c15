// Refusal 25 of the whole state, which the runner tests before the calls.
#![tactic(auto)]

ghost use Rattle.std.specs.Prelude.{◌≡◌, ◌+◌, ◌*◌, ◌≤◌, length};
ghost use Rattle.buffer_core.specs.Edition.{edition_1};
ghost use Rattle.buffer_core.specs.Pop.{lists_ok};
ghost use Rattle.call_steps.specs.State.{state, counts_ok, blocks_ok, lengths_ok, state_ok};
ghost use Rattle.call_steps.specs.Steps.{lists_with};

use call_steps::{PARENT_IDS, PARENT_NUMBERS};
use index_types::{RowEdition, SEGMENT_THRESHOLD, SpillCounts, TOKEN_LIMIT};

fn blocks_ok(parents: usize, ids: &[u8], numbers: &[i64], lengths: &[usize], spills: &[i32]) -> bool
    ensures { result ≡ blocks_ok parents ids.now numbers.now lengths.now spills.now }
{
    if parents <= ids.len() / PARENT_IDS {
        if parents <= numbers.len() / PARENT_NUMBERS {
            if parents <= lengths.len() / 3 {
                return parents <= spills.len() / 2;
            }
        }
    }
    false
}

// Of one parent: its heads and its token count.
fn counts_ok(lengths: &[usize], p: usize) -> bool
    requires { p * 3 + 3 ≤ length lengths.now }
    ensures { result ≡ counts_ok p lengths.now }
{
    if lengths[p * 3] <= SEGMENT_THRESHOLD {
        if lengths[p * 3 + 1] <= SEGMENT_THRESHOLD {
            return lengths[p * 3 + 2] <= TOKEN_LIMIT;
        }
    }
    false
}

fn lengths_ok(parents: usize, lengths: &[usize]) -> bool
    requires { parents * 3 ≤ length lengths.now }
    ensures { result ≡ lengths_ok parents lengths.now }
{
    for p in 0..parents {
        if !counts_ok(lengths, p) {
            return false;
        }
    }
    true
}

fn lists_ok(staged: &[u8], table: &[u8], deleted: &[u8], counts: SpillCounts) -> bool
    ensures { result ≡ lists_ok edition_1 (lists_with counts staged.now table.now deleted.now) }
{
    let staged_counts = counts.staged;
    let table_counts = counts.table;
    let deleted_counts = counts.deleted;
    buffer_checks::lists_ok(
        RowEdition::One,
        staged_counts,
        staged,
        table_counts,
        table,
        deleted_counts,
        deleted,
    )
}

// Refusal 25 of the whole state: the places of all parents, their heads, and the three lists.
pub fn state_ok(
    parents: usize,
    ids: &[u8],
    numbers: &[i64],
    lengths: &[usize],
    spills: &[i32],
    staged: &[u8],
    table: &[u8],
    deleted: &[u8],
    counts: SpillCounts,
) -> bool
    ensures { result ≡ state_ok edition_1 parents (state ids.now numbers.now lengths.now spills.now
        (lists_with counts staged.now table.now deleted.now)) }
{
    if blocks_ok(parents, ids, numbers, lengths, spills) {
        if lengths_ok(parents, lengths) {
            return lists_ok(staged, table, deleted, counts);
        }
    }
    false
}

// Many calls over the state of many parents: refusal 25 is tested once, then each call of the input is made as its single export makes it. A state that is
// refused leaves all as it was.
#![tactic(auto)]

ghost use Rattle.std.specs.Prelude.{◌≡◌};
ghost use Rattle.call_steps.specs.Steps.{spill_counts};
ghost use Rattle.ergo_index_lists.specs.Lists.{list_of};
ghost use Rattle.ergo_index_batch.specs.Batch.{outs_of, run_out, run_call};

use index_types::{ListCounts, SpillCounts};
use runner::Progress;

// The code and what goes to the outs that are numbers.
#[derive(Clone, Copy)]
struct Outs {
    code: u8,
    at: usize,
    made: usize,
    end: u8,
    staged: usize,
    table: usize,
    deleted: usize,
}

// The counts of the three lists, each beside its capacity.
fn spill_counts(
    staged: usize,
    staged_capacity: usize,
    table: usize,
    table_capacity: usize,
    deleted: usize,
    deleted_capacity: usize,
) -> SpillCounts
    ensures { result ≡ spill_counts (list_of staged staged_capacity) (list_of table table_capacity) (list_of deleted deleted_capacity) }
{
    let staged_counts = ListCounts {
        count: staged,
        capacity: staged_capacity,
    };
    let table_counts = ListCounts {
        count: table,
        capacity: table_capacity,
    };
    let deleted_counts = ListCounts {
        count: deleted,
        capacity: deleted_capacity,
    };
    SpillCounts {
        staged: staged_counts,
        table: table_counts,
        deleted: deleted_counts,
    }
}

// The outs after a run, of which three were at, made and end.
fn outs_of(p: Progress, at: usize, made: usize, end: u8) -> Outs
    ensures { result ≡ outs_of p at made end }
{
    let after = p.counts;
    let staged = after.staged;
    let table = after.table;
    let deleted = after.deleted;
    let ended = p.end;
    Outs {
        code: batch_answers::code_of(ended),
        at: batch_answers::kept(ended, at, p.at),
        made: batch_answers::kept(ended, made, p.made),
        end: batch_answers::kept_end(ended, end),
        staged: staged.count,
        table: table.count,
        deleted: deleted.count,
    }
}

// The calls from the front of the input, until no call stands at `at` or the answers have no room; `made` of them were answered, and `end` tells why there
// was no further one. The result is 25 where the state was refused, and then nothing is changed; else 0.
#[unsafe(no_mangle)]
pub extern "C" fn ergo_index_run_calls(
    input: &[u8],
    parents: usize,
    ids: &mut [u8],
    numbers: &mut [i64],
    lengths: &mut [usize],
    spills: &mut [i32],
    staged_count: &mut usize,
    staged_capacity: usize,
    staged: &mut [u8],
    table_count: &mut usize,
    table_capacity: usize,
    table: &mut [u8],
    deleted_count: &mut usize,
    deleted_capacity: usize,
    deleted: &mut [u8],
    answers: &mut [u8],
    popped: &mut [i64],
    at: &mut usize,
    made: &mut usize,
    end: &mut u8,
) -> u8
    ensures { run_out result at.new made.new end.new staged_count.new table_count.new deleted_count.new
        ids.new numbers.new lengths.new spills.new staged.new table.new deleted.new answers.new popped.new
        ≡ run_call input.now parents ids.old numbers.old lengths.old spills.old staged_count.old staged_capacity staged.old
        table_count.old table_capacity table.old deleted_count.old deleted_capacity deleted.old answers.old popped.old
        at.old made.old end.old }
{
    let counts = spill_counts(
        *staged_count,
        staged_capacity,
        *table_count,
        table_capacity,
        *deleted_count,
        deleted_capacity,
    );
    let p = runner::run_calls(
        input, parents, ids, numbers, lengths, spills, staged, table, deleted, answers, popped,
        counts,
    );
    let outs = outs_of(p, *at, *made, *end);
    *staged_count = outs.staged;
    *table_count = outs.table;
    *deleted_count = outs.deleted;
    *at = outs.at;
    *made = outs.made;
    *end = outs.end;
    outs.code
}

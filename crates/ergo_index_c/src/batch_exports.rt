// Many calls over the state of many parents: refusal 25 is tested once, then each call of the input is made as its single export makes it. A state that is
// refused leaves all as it was.
ghost use Rattle.std.specs.Prelude.{◌≡◌};
ghost use Rattle.ergo_index_batch.specs.Batch.{run_out, run_call};

// The calls from the front of the input, until no call stands at `at` or the answers have no room; `made` of them were answered, and `end` tells why there
// was no further one. The result is 25 where the state was refused, and then nothing is changed; else 0.
#[unsafe(no_mangle)]
pub extern "C" fn ergo_index_run_calls(
    input: &[u8],
    parents: usize,
    ids: &mut [u8],
    numbers: &mut [i64],
    lengths: &mut [usize],
    spills: &mut [i32],
    staged_count: &mut usize,
    staged_capacity: usize,
    staged: &mut [u8],
    table_count: &mut usize,
    table_capacity: usize,
    table: &mut [u8],
    deleted_count: &mut usize,
    deleted_capacity: usize,
    deleted: &mut [u8],
    answers: &mut [u8],
    popped: &mut [i64],
    at: &mut usize,
    made: &mut usize,
    end: &mut u8,
) -> u8
    ensures { run_out result at.new made.new end.new staged_count.new table_count.new deleted_count.new
        ids.new numbers.new lengths.new spills.new staged.new table.new deleted.new answers.new popped.new
        ≡ run_call input.now parents ids.old numbers.old lengths.old spills.old staged_count.old staged_capacity staged.old
        table_count.old table_capacity table.old deleted_count.old deleted_capacity deleted.old answers.old popped.old
        at.old made.old end.old }
{
    ergo_index_batch::ergo_index_run_calls(
        input,
        parents,
        ids,
        numbers,
        lengths,
        spills,
        staged_count,
        staged_capacity,
        staged,
        table_count,
        table_capacity,
        table,
        deleted_count,
        deleted_capacity,
        deleted,
        answers,
        popped,
        at,
        made,
        end,
    )
}

// A driver's batches of calls, beside a journal or without one, and undo to a mark. A state or a journal that is refused leaves all as it was.
ghost use Rattle.std.specs.Prelude.{◌≡◌};
ghost use Rattle.driver_core.specs.Bytes.{journal};
ghost use Rattle.ergo_index_driver.specs.Driver.{state_in, state_out, apply_out, apply_call, make_out, make_call, undo_out, undo_call};

// The calls from the front of the input, the accepted ones at the end of the journal, until one ends the batch or the answers have no room; `made` of them were
// answered, and `end` tells why there was no further one. The result is 25 where the state or the journal was refused, and then nothing is changed; else 0.
#[unsafe(no_mangle)]
pub extern "C" fn ergo_index_apply_calls(
    input: &[u8],
    parents: usize,
    ids: &mut [u8],
    numbers: &mut [i64],
    lengths: &mut [usize],
    spills: &mut [i32],
    staged_count: &mut usize,
    staged_capacity: usize,
    staged: &mut [u8],
    table_count: &mut usize,
    table_capacity: usize,
    table: &mut [u8],
    deleted_count: &mut usize,
    deleted_capacity: usize,
    deleted: &mut [u8],
    entries: &mut [u8],
    used: &mut usize,
    standing: &mut usize,
    answers: &mut [u8],
    at: &mut usize,
    made: &mut usize,
    end: &mut u8,
) -> u8
    ensures { apply_out result at.new made.new end.new used.new standing.new
        (state_out staged_count.new table_count.new deleted_count.new ids.new numbers.new lengths.new spills.new staged.new table.new deleted.new)
        entries.new answers.new
        ≡ apply_call input.now parents (state_in staged_count.old staged_capacity table_count.old table_capacity deleted_count.old deleted_capacity ids.old numbers.old lengths.old spills.old staged.old table.old deleted.old)
        (journal entries.old used.old standing.old) answers.old at.old made.old end.old }
{
    ergo_index_driver::ergo_index_apply_calls(
        input,
        parents,
        ids,
        numbers,
        lengths,
        spills,
        staged_count,
        staged_capacity,
        staged,
        table_count,
        table_capacity,
        table,
        deleted_count,
        deleted_capacity,
        deleted,
        entries,
        used,
        standing,
        answers,
        at,
        made,
        end,
    )
}

// The same without a journal, also unspends and pops; `popped` has the popped numbers.
#[unsafe(no_mangle)]
pub extern "C" fn ergo_index_make_calls(
    input: &[u8],
    parents: usize,
    ids: &mut [u8],
    numbers: &mut [i64],
    lengths: &mut [usize],
    spills: &mut [i32],
    staged_count: &mut usize,
    staged_capacity: usize,
    staged: &mut [u8],
    table_count: &mut usize,
    table_capacity: usize,
    table: &mut [u8],
    deleted_count: &mut usize,
    deleted_capacity: usize,
    deleted: &mut [u8],
    answers: &mut [u8],
    popped: &mut [i64],
    at: &mut usize,
    made: &mut usize,
    end: &mut u8,
) -> u8
    ensures { make_out result at.new made.new end.new
        (state_out staged_count.new table_count.new deleted_count.new ids.new numbers.new lengths.new spills.new staged.new table.new deleted.new)
        answers.new popped.new
        ≡ make_call input.now parents (state_in staged_count.old staged_capacity table_count.old table_capacity deleted_count.old deleted_capacity ids.old numbers.old lengths.old spills.old staged.old table.old deleted.old)
        answers.old popped.old at.old made.old end.old }
{
    ergo_index_driver::ergo_index_make_calls(
        input,
        parents,
        ids,
        numbers,
        lengths,
        spills,
        staged_count,
        staged_capacity,
        staged,
        table_count,
        table_capacity,
        table,
        deleted_count,
        deleted_capacity,
        deleted,
        answers,
        popped,
        at,
        made,
        end,
    )
}

// The newest standing calls of the journal undone until no more than `mark` stand. The result is 0, 25 with nothing changed, or the refusal that ended the undos.
#[unsafe(no_mangle)]
pub extern "C" fn ergo_index_undo_to(
    parents: usize,
    mark: usize,
    ids: &mut [u8],
    numbers: &mut [i64],
    lengths: &mut [usize],
    spills: &mut [i32],
    staged_count: &mut usize,
    staged_capacity: usize,
    staged: &mut [u8],
    table_count: &mut usize,
    table_capacity: usize,
    table: &mut [u8],
    deleted_count: &mut usize,
    deleted_capacity: usize,
    deleted: &mut [u8],
    entries: &[u8],
    used: &mut usize,
    standing: &mut usize,
) -> u8
    ensures { undo_out result used.new standing.new
        (state_out staged_count.new table_count.new deleted_count.new ids.new numbers.new lengths.new spills.new staged.new table.new deleted.new)
        ≡ undo_call parents mark (state_in staged_count.old staged_capacity table_count.old table_capacity deleted_count.old deleted_capacity ids.old numbers.old lengths.old spills.old staged.old table.old deleted.old)
        (journal entries.now used.old standing.old) }
{
    ergo_index_driver::ergo_index_undo_to(
        parents,
        mark,
        ids,
        numbers,
        lengths,
        spills,
        staged_count,
        staged_capacity,
        staged,
        table_count,
        table_capacity,
        table,
        deleted_count,
        deleted_capacity,
        deleted,
        entries,
        used,
        standing,
    )
}

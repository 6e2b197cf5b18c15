// One call on the runner's state, once refusal 25 has passed, and the hints of where the table's records stand (`record_hints`), which a flush keeps.
#![tactic(auto)]

ghost use Rattle.std.specs.Prelude.{◌≡◌};
ghost use Rattle.buffer_core.specs.Edition.{edition_1};
ghost use Rattle.call_steps.specs.State.{state};
ghost use Rattle.call_steps.specs.Steps.{left_by, lists_with, step_of, StepReady};
ghost use Rattle.run_steps.specs.Undoes.{Undoes};

use call_steps::Stepped;
use calls::Call;
use index_types::SpillCounts;

// Notes where the records of the table stand.
pub fn note_table(counts: SpillCounts, table: &[u8], hints: &mut [u16]) {
    let held = counts.table;
    let count = held.count;
    if table.len() / buffer_core::RECORD < count {
        return;
    }
    record_hints::note_places(table, buffer_core::RECORD, count, hints);
}

// Makes a call as the single functions define it.
pub fn step(
    call: Call,
    ids: &mut [u8],
    numbers: &mut [i64],
    lengths: &mut [usize],
    spills: &mut [i32],
    staged: &mut [u8],
    table: &mut [u8],
    deleted: &mut [u8],
    hints: &mut [u16],
    counts: SpillCounts,
) -> Stepped
    requires { StepReady call (state ids.old numbers.old lengths.old spills.old (lists_with counts staged.old table.old deleted.old)) }
    ensures { left_by result ids.new numbers.new lengths.new spills.new staged.new table.new deleted.new
        ≡ step_of edition_1 call (state ids.old numbers.old lengths.old spills.old
        (lists_with counts staged.old table.old deleted.old)) }
{
    match call {
        Call::Append(kind, p, n) => segment_steps::append_step(
            kind, p, n, ids, numbers, lengths, spills, staged, counts,
        ),
        Call::Flip(direction, p, n) => segment_steps::flip_step(
            direction, p, n, ids, numbers, lengths, spills, staged, table, hints, counts,
        ),
        Call::Pop(kind, p) => segment_steps::pop_step(
            kind, p, ids, numbers, lengths, spills, staged, table, deleted, counts,
        ),
        Call::Flush => segment_steps::flush_step(table, staged, deleted, hints, counts),
        Call::Change(adding, p, nanos, token, amount) => {
            let said = balance_steps::change_step(
                adding, p, nanos, token, amount, ids, numbers, lengths,
            );
            Stepped { said, counts }
        }
        Call::Bad => run_answers::no_call(counts),
        Call::Cut => run_answers::no_call(counts),
        Call::End => run_answers::no_call(counts),
    }
}

// Makes a pop, a flip or a flush, as the single functions define it. A loop of appends and spends that undoes and flushes by this function has one use of `step`.
pub fn undo_step(
    call: Call,
    ids: &mut [u8],
    numbers: &mut [i64],
    lengths: &mut [usize],
    spills: &mut [i32],
    staged: &mut [u8],
    table: &mut [u8],
    deleted: &mut [u8],
    hints: &mut [u16],
    counts: SpillCounts,
) -> Stepped
    requires { StepReady call (state ids.old numbers.old lengths.old spills.old (lists_with counts staged.old table.old deleted.old)) × Undoes call }
    ensures { left_by result ids.new numbers.new lengths.new spills.new staged.new table.new deleted.new
        ≡ step_of edition_1 call (state ids.old numbers.old lengths.old spills.old
        (lists_with counts staged.old table.old deleted.old)) }
{
    match call {
        Call::Append(_, _, _) => run_answers::no_call(counts),
        Call::Flip(direction, p, n) => segment_steps::flip_step(
            direction, p, n, ids, numbers, lengths, spills, staged, table, hints, counts,
        ),
        Call::Pop(kind, p) => segment_steps::pop_step(
            kind, p, ids, numbers, lengths, spills, staged, table, deleted, counts,
        ),
        Call::Flush => segment_steps::flush_step(table, staged, deleted, hints, counts),
        Call::Change(_, _, _, _, _) => run_answers::no_call(counts),
        Call::Bad => run_answers::no_call(counts),
        Call::Cut => run_answers::no_call(counts),
        Call::End => run_answers::no_call(counts),
    }
}

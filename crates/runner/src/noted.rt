// Hints of where the table's records stand (`record_hints`), noted before the first call.
ghost use Rattle.std.specs.Prelude.{◌≡◌, ◌+◌, length};
ghost use Rattle.buffer_core.specs.Edition.{edition_1};
ghost use Rattle.call_steps.specs.State.{Ready, state};
ghost use Rattle.call_steps.specs.Steps.{lists_with};
ghost use Rattle.runner.specs.Run.{run, start, runs};

use super::Progress;
use index_types::SpillCounts;

// The calls from the front of the input, with hints where the table has many records.
pub fn run_noted(
    input: &[u8],
    parents: usize,
    ids: &mut [u8],
    numbers: &mut [i64],
    lengths: &mut [usize],
    spills: &mut [i32],
    staged: &mut [u8],
    table: &mut [u8],
    deleted: &mut [u8],
    answers: &mut [u8],
    popped: &mut [i64],
    counts: SpillCounts,
) -> Progress
    requires { Ready parents (state ids.old numbers.old lengths.old spills.old (lists_with counts staged.old table.old deleted.old)) }
    ensures { run result ids.new numbers.new lengths.new spills.new staged.new table.new deleted.new answers.new popped.new
        ≡ runs edition_1 parents input.now (length input.now + 1) (start (state ids.old numbers.old lengths.old spills.old (lists_with counts staged.old table.old deleted.old)) answers.old popped.old) }
{
    let held = counts.table;
    if held.count <= record_hints::FEW_RECORDS {
        let mut none = [0u16; 1];
        return super::run_ready(
            input,
            parents,
            ids,
            numbers,
            lengths,
            spills,
            staged,
            table,
            deleted,
            answers,
            popped,
            &mut none[..0],
            counts,
        );
    }
    let mut hints = [0u16; record_hints::BATCH_HINTS];
    run_steps::note_table(counts, table, &mut hints);
    super::run_ready(
        input, parents, ids, numbers, lengths, spills, staged, table, deleted, answers, popped,
        &mut hints, counts,
    )
}

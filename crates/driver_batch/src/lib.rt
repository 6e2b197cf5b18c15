// A batch of a driver's calls over borrowed state for any number of parents: beside a borrowed journal of the accepted ones, or without one.
#![tactic(auto)]

ghost use Rattle.std.specs.Prelude.{◌≡◌, true, false, []};
ghost use Rattle.call_steps.specs.State.{state};
ghost use Rattle.call_steps.specs.Steps.{lists_with};
ghost use Rattle.driver_core.specs.Bytes.{journal};
ghost use Rattle.driver_core.specs.Apply.{driver_ok, apply_of};
ghost use Rattle.driver_turns.specs.Batch.{applied};

use index_types::{Applied, SpillCounts};

// Refusal 25 of the state and of the journal.
pub fn driver_ok(
    parents: usize,
    ids: &[u8],
    numbers: &[i64],
    lengths: &[usize],
    spills: &[i32],
    staged: &[u8],
    table: &[u8],
    deleted: &[u8],
    entries: &[u8],
    counts: SpillCounts,
    used: usize,
    standing: usize,
) -> bool
    ensures { result ≡ driver_ok parents (state ids.now numbers.now lengths.now spills.now (lists_with counts staged.now table.now deleted.now)) (journal entries.now used standing) }
{
    if run_checks::state_ok(
        parents, ids, numbers, lengths, spills, staged, table, deleted, counts,
    ) {
        return driver_journal::journal_ok(entries, used, standing);
    }
    false
}

// The calls of an input over the state of all parents, and the accepted ones at the end of the journal: refusal 25 is tested once, then each call is made as the
// single functions define it, from the front, until none stands there, one says what the driver lifts, or the journal or the answers have no room. Answer i is
// the refusal or 0. An unspend or a pop is no call here.
pub fn apply_calls(
    input: &[u8],
    parents: usize,
    ids: &mut [u8],
    numbers: &mut [i64],
    lengths: &mut [usize],
    spills: &mut [i32],
    staged: &mut [u8],
    table: &mut [u8],
    deleted: &mut [u8],
    entries: &mut [u8],
    answers: &mut [u8],
    counts: SpillCounts,
    used: usize,
    standing: usize,
) -> Applied
    ensures { applied result ids.new numbers.new lengths.new spills.new staged.new table.new deleted.new entries.new answers.new []
        ≡ apply_of true parents input.now (state ids.old numbers.old lengths.old spills.old (lists_with counts staged.old table.old deleted.old)) (journal entries.old used standing) answers.old [] }
{
    if driver_ok(
        parents, ids, numbers, lengths, spills, staged, table, deleted, entries, counts, used,
        standing,
    ) {
        let mut none = [0i64; 1];
        return driver_turns::apply_noted(
            true,
            input,
            parents,
            ids,
            numbers,
            lengths,
            spills,
            staged,
            table,
            deleted,
            entries,
            answers,
            &mut none[..0],
            counts,
            used,
            standing,
        );
    }
    Applied {
        counts,
        at: 0,
        made: 0,
        used,
        standing,
        ended: refusal::BUFFERS,
    }
}

// The same without a journal, also unspends and pops. Popped number i is 0 where none was popped.
pub fn make_calls(
    input: &[u8],
    parents: usize,
    ids: &mut [u8],
    numbers: &mut [i64],
    lengths: &mut [usize],
    spills: &mut [i32],
    staged: &mut [u8],
    table: &mut [u8],
    deleted: &mut [u8],
    answers: &mut [u8],
    popped: &mut [i64],
    counts: SpillCounts,
) -> Applied
    ensures { applied result ids.new numbers.new lengths.new spills.new staged.new table.new deleted.new [] answers.new popped.new
        ≡ apply_of false parents input.now (state ids.old numbers.old lengths.old spills.old (lists_with counts staged.old table.old deleted.old)) (journal [] 0 0) answers.old popped.old }
{
    if run_checks::state_ok(
        parents, ids, numbers, lengths, spills, staged, table, deleted, counts,
    ) {
        let mut none = [0u8; 1];
        return driver_turns::apply_noted(
            false,
            input,
            parents,
            ids,
            numbers,
            lengths,
            spills,
            staged,
            table,
            deleted,
            &mut none[..0],
            answers,
            popped,
            counts,
            0,
            0,
        );
    }
    Applied {
        counts,
        at: 0,
        made: 0,
        used: 0,
        standing: 0,
        ended: refusal::BUFFERS,
    }
}

// The turns of a driver's batch, once refusal 25 has passed: a call each, and beside a journal the accepted ones are kept there.
#![tactic(auto)]

ghost use Rattle.std.specs.Prelude.{◌≡◌, ◌+◌, length};
ghost use Rattle.call_steps.specs.State.{Ready, state};
ghost use Rattle.call_steps.specs.Steps.{lists_with};
ghost use Rattle.driver_core.specs.Bytes.{journal};
ghost use Rattle.driver_core.specs.Apply.{applying, apply_turns};
ghost use Rattle.driver_turns.specs.Batch.{applied};
ghost use Rattle.driver_journal.specs.Journals.{JournalReady};
ghost use Rattle.driver_turns.specs.Internal.{turn_of, TurnReady};

use index_types::{ANSWERS_FULL, Applied, JOURNAL_FULL, SpillCounts};

// The call at the next byte is made, answered, and journaled where it is accepted; where none stands, none has room, or the driver lifts what it said, how it
// ended is noted.
fn turn(
    journaled: bool,
    input: &[u8],
    parents: usize,
    ids: &mut [u8],
    numbers: &mut [i64],
    lengths: &mut [usize],
    spills: &mut [i32],
    staged: &mut [u8],
    table: &mut [u8],
    deleted: &mut [u8],
    entries: &mut [u8],
    answers: &mut [u8],
    popped: &mut [i64],
    hints: &mut [u16],
    p: Applied,
) -> Applied
    requires { TurnReady parents input.now (applied p ids.old numbers.old lengths.old spills.old staged.old table.old deleted.old entries.old answers.old popped.old) }
    ensures { applied result ids.new numbers.new lengths.new spills.new staged.new table.new deleted.new entries.new answers.new popped.new
        ≡ turn_of journaled parents input.now (applied p ids.old numbers.old lengths.old spills.old staged.old table.old deleted.old entries.old answers.old popped.old) }
{
    let counts = p.counts;
    let at = p.at;
    let made = p.made;
    let used = p.used;
    let standing = p.standing;
    let count = made + 1;
    let read = driver_calls::read_at(input, at, parents);
    let end = driver_calls::end_of(journaled, read);
    if end != 0 {
        return Applied {
            counts,
            at,
            made,
            used,
            standing,
            ended: end,
        };
    }
    let size = driver_calls::size_at(input, at);
    let next = at + size;
    let entered = driver_calls::is_entry(journaled, read);
    if !driver_journal::has_room(entered, used, size, entries) {
        return Applied {
            counts,
            at,
            made,
            used,
            standing,
            ended: JOURNAL_FULL,
        };
    }
    let s = driver_steps::step(
        driver_steps::made_by(read),
        input,
        ids,
        numbers,
        lengths,
        spills,
        staged,
        table,
        deleted,
        hints,
        counts,
    );
    let said = s.said;
    let after = s.counts;
    let code = said.code;
    if driver_steps::may_be_lifted(code) {
        return Applied {
            counts: after,
            at,
            made,
            used,
            standing,
            ended: code,
        };
    }
    answers[made] = code;
    driver_journal::put_number(popped, made, said.number);
    let place = driver_journal::keep(entered, code, input, at, entries, used, standing);
    Applied {
        counts: after,
        at: next,
        made: count,
        used: place.used,
        standing: place.standing,
        ended: ANSWERS_FULL,
    }
}

// The calls from the front of the input, until one ends it or the answers have no room.
fn apply_ready(
    journaled: bool,
    input: &[u8],
    parents: usize,
    ids: &mut [u8],
    numbers: &mut [i64],
    lengths: &mut [usize],
    spills: &mut [i32],
    staged: &mut [u8],
    table: &mut [u8],
    deleted: &mut [u8],
    entries: &mut [u8],
    answers: &mut [u8],
    popped: &mut [i64],
    hints: &mut [u16],
    counts: SpillCounts,
    used: usize,
    standing: usize,
) -> Applied
    requires { Ready parents (state ids.old numbers.old lengths.old spills.old (lists_with counts staged.old table.old deleted.old)) × JournalReady (journal entries.old used standing) }
    ensures { applied result ids.new numbers.new lengths.new spills.new staged.new table.new deleted.new entries.new answers.new popped.new
        ≡ apply_turns journaled parents input.now (length input.now + 1) (applying (state ids.old numbers.old lengths.old spills.old (lists_with counts staged.old table.old deleted.old)) (journal entries.old used standing) 0 0 0 answers.old popped.old) }
{
    let mut p = Applied {
        counts,
        at: 0,
        made: 0,
        used,
        standing,
        ended: ANSWERS_FULL,
    };
    for _ in 0..=input.len() {
        let made = p.made;
        let ended = p.ended;
        if !driver_journal::may_go(made, ended, answers) {
            return p;
        }
        p = turn(
            journaled, input, parents, ids, numbers, lengths, spills, staged, table, deleted,
            entries, answers, popped, hints, p,
        );
    }
    p
}

// The same with hints of where the table's records stand (`record_hints`), where it has many.
pub fn apply_noted(
    journaled: bool,
    input: &[u8],
    parents: usize,
    ids: &mut [u8],
    numbers: &mut [i64],
    lengths: &mut [usize],
    spills: &mut [i32],
    staged: &mut [u8],
    table: &mut [u8],
    deleted: &mut [u8],
    entries: &mut [u8],
    answers: &mut [u8],
    popped: &mut [i64],
    counts: SpillCounts,
    used: usize,
    standing: usize,
) -> Applied
    requires { Ready parents (state ids.old numbers.old lengths.old spills.old (lists_with counts staged.old table.old deleted.old)) × JournalReady (journal entries.old used standing) }
    ensures { applied result ids.new numbers.new lengths.new spills.new staged.new table.new deleted.new entries.new answers.new popped.new
        ≡ apply_turns journaled parents input.now (length input.now + 1) (applying (state ids.old numbers.old lengths.old spills.old (lists_with counts staged.old table.old deleted.old)) (journal entries.old used standing) 0 0 0 answers.old popped.old) }
{
    let held = counts.table;
    if held.count <= record_hints::FEW_RECORDS {
        let mut none = [0u16; 1];
        return apply_ready(
            journaled,
            input,
            parents,
            ids,
            numbers,
            lengths,
            spills,
            staged,
            table,
            deleted,
            entries,
            answers,
            popped,
            &mut none[..0],
            counts,
            used,
            standing,
        );
    }
    let mut hints = [0u16; record_hints::BATCH_HINTS];
    run_steps::note_table(counts, table, &mut hints);
    apply_ready(
        journaled, input, parents, ids, numbers, lengths, spills, staged, table, deleted, entries,
        answers, popped, &mut hints, counts, used, standing,
    )
}

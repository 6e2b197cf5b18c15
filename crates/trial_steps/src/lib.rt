// One flush, one call and one undo of a trial of staging sizes (document 02, U12), once 25 and 38 are tested.
#![tactic(auto)]

ghost use Rattle.std.specs.Prelude.{◌≡◌, false};
ghost use Rattle.call_steps.specs.State.{Ready, state};
ghost use Rattle.call_steps.specs.Steps.{lists_with, StepReady};
ghost use Rattle.run_steps.specs.Undoes.{Undoes};
ghost use Rattle.standing_calls.specs.Stands.{side_of, is_flush};
ghost use Rattle.trial_steps.specs.Held.{held, made_held, Changed, MakeReady, MakesBy, UndoReady, UndoesBy};

use calls::Call;
use standing_calls::{Side, TrialState};

// ---- one call on the index

// Makes a call and takes the largest numbers; what the call said is the end.
fn called(
    call: Call,
    ids: &mut [u8],
    numbers: &mut [i64],
    lengths: &mut [usize],
    spills: &mut [i32],
    staged: &mut [u8],
    table: &mut [u8],
    deleted: &mut [u8],
    hints: &mut [u16],
    t: TrialState,
) -> TrialState
    requires { StepReady call (state ids.old numbers.old lengths.old spills.old (lists_with t.counts staged.old table.old deleted.old)) }
    ensures { held result ids.new numbers.new lengths.new spills.new staged.new table.new deleted.new
        ≡ made_held call (held t ids.old numbers.old lengths.old spills.old staged.old table.old deleted.old) }
{
    let counts = t.counts;
    let s = run_steps::step(
        call, ids, numbers, lengths, spills, staged, table, deleted, hints, counts,
    );
    let said = s.said;
    let end = said.code;
    let after = s.counts;
    standing_calls::noted(after, end, t)
}

// The same of an undo or a flush.
fn made(
    call: Call,
    ids: &mut [u8],
    numbers: &mut [i64],
    lengths: &mut [usize],
    spills: &mut [i32],
    staged: &mut [u8],
    table: &mut [u8],
    deleted: &mut [u8],
    hints: &mut [u16],
    t: TrialState,
) -> TrialState
    requires { StepReady call (state ids.old numbers.old lengths.old spills.old (lists_with t.counts staged.old table.old deleted.old)) × Undoes call }
    ensures { held result ids.new numbers.new lengths.new spills.new staged.new table.new deleted.new
        ≡ made_held call (held t ids.old numbers.old lengths.old spills.old staged.old table.old deleted.old) }
{
    let counts = t.counts;
    let s = run_steps::undo_step(
        call, ids, numbers, lengths, spills, staged, table, deleted, hints, counts,
    );
    let said = s.said;
    let end = said.code;
    let after = s.counts;
    standing_calls::noted(after, end, t)
}

// ---- the flush at a change

// The flush directly before a call or an undo of the other side.
fn change_to(
    to: Side,
    ids: &mut [u8],
    numbers: &mut [i64],
    lengths: &mut [usize],
    spills: &mut [i32],
    staged: &mut [u8],
    table: &mut [u8],
    deleted: &mut [u8],
    hints: &mut [u16],
    t: TrialState,
) -> TrialState
    requires { Ready 1 (state ids.old numbers.old lengths.old spills.old (lists_with t.counts staged.old table.old deleted.old)) }
    ensures { Changed (side_of to) (held t ids.old numbers.old lengths.old spills.old staged.old table.old deleted.old)
        (held result ids.new numbers.new lengths.new spills.new staged.new table.new deleted.new) }
{
    let side = t.side;
    let flushes = standing_calls::changes(side, to);
    if flushes {
        let r = made(
            Call::Flush,
            ids,
            numbers,
            lengths,
            spills,
            staged,
            table,
            deleted,
            hints,
            t,
        );
        let counts_after = r.counts;
        return TrialState {
            counts: counts_after,
            side: to,
            stood: r.stood,
            staged: r.staged,
            deleted: r.deleted,
            end: r.end,
        };
    }
    let counts = t.counts;
    TrialState {
        counts,
        side: to,
        stood: t.stood,
        staged: t.staged,
        deleted: t.deleted,
        end: 0,
    }
}

// ---- a drawn call

// Makes an append or a spend, with the flush before it where the side changes.
fn call_made(
    call: Call,
    room: usize,
    block: u64,
    ids: &mut [u8],
    numbers: &mut [i64],
    lengths: &mut [usize],
    spills: &mut [i32],
    staged: &mut [u8],
    table: &mut [u8],
    deleted: &mut [u8],
    hints: &mut [u16],
    standing: &mut [i64],
    t: TrialState,
) -> TrialState
    requires { MakeReady room block call t.stood standing.old (state ids.old numbers.old lengths.old spills.old (lists_with t.counts staged.old table.old deleted.old))
        × (is_flush call ≡ false) }
    ensures { MakesBy room block call (held t ids.old numbers.old lengths.old spills.old staged.old table.old deleted.old) standing.old
        (held result ids.new numbers.new lengths.new spills.new staged.new table.new deleted.new) standing.new }
{
    let c = change_to(
        Side::Called,
        ids,
        numbers,
        lengths,
        spills,
        staged,
        table,
        deleted,
        hints,
        t,
    );
    if c.end != 0 {
        return c;
    }
    let r = called(
        call, ids, numbers, lengths, spills, staged, table, deleted, hints, c,
    );
    let s = standing_calls::stand(call, room, block, standing, r.stood, r.end);
    let counts = r.counts;
    let side = r.side;
    TrialState {
        counts,
        side,
        stood: s.stood,
        staged: r.staged,
        deleted: r.deleted,
        end: s.end,
    }
}

// Makes a drawn call: a flush never stands.
pub fn make(
    call: Call,
    room: usize,
    block: u64,
    ids: &mut [u8],
    numbers: &mut [i64],
    lengths: &mut [usize],
    spills: &mut [i32],
    staged: &mut [u8],
    table: &mut [u8],
    deleted: &mut [u8],
    hints: &mut [u16],
    standing: &mut [i64],
    t: TrialState,
) -> TrialState
    requires { MakeReady room block call t.stood standing.old (state ids.old numbers.old lengths.old spills.old (lists_with t.counts staged.old table.old deleted.old)) }
    ensures { MakesBy room block call (held t ids.old numbers.old lengths.old spills.old staged.old table.old deleted.old) standing.old
        (held result ids.new numbers.new lengths.new spills.new staged.new table.new deleted.new) standing.new }
{
    let flush = standing_calls::is_flush(call);
    if flush {
        return made(
            Call::Flush,
            ids,
            numbers,
            lengths,
            spills,
            staged,
            table,
            deleted,
            hints,
            t,
        );
    }
    call_made(
        call, room, block, ids, numbers, lengths, spills, staged, table, deleted, hints, standing,
        t,
    )
}

// ---- an undo

// Undoes the newest standing call, with the flush before it where the side changes.
pub fn undo_newest(
    ids: &mut [u8],
    numbers: &mut [i64],
    lengths: &mut [usize],
    spills: &mut [i32],
    staged: &mut [u8],
    table: &mut [u8],
    deleted: &mut [u8],
    hints: &mut [u16],
    standing: &[i64],
    t: TrialState,
) -> TrialState
    requires { UndoReady t.stood standing.now (state ids.old numbers.old lengths.old spills.old (lists_with t.counts staged.old table.old deleted.old)) }
    ensures { UndoesBy (held t ids.old numbers.old lengths.old spills.old staged.old table.old deleted.old) standing.now
        (held result ids.new numbers.new lengths.new spills.new staged.new table.new deleted.new) }
{
    let call = standing_calls::newest_undo(standing, t.stood);
    let left = t.stood - 1;
    let c = change_to(
        Side::Undid,
        ids,
        numbers,
        lengths,
        spills,
        staged,
        table,
        deleted,
        hints,
        t,
    );
    if c.end != 0 {
        return c;
    }
    let r = made(
        call, ids, numbers, lengths, spills, staged, table, deleted, hints, c,
    );
    let counts = r.counts;
    let side = r.side;
    TrialState {
        counts,
        side,
        stood: left,
        staged: r.staged,
        deleted: r.deleted,
        end: r.end,
    }
}

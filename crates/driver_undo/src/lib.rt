// Undoing a driver's standing calls down to a mark, from the journal of `driver_batch`.
#![tactic(auto)]

ghost use Rattle.std.specs.Prelude.{◌≡◌, true, ◌*◌, ◌<◌};
ghost use Rattle.call_steps.specs.State.{state};
ghost use Rattle.call_steps.specs.Steps.{lists_with};
ghost use Rattle.driver_core.specs.Steps.{final};
ghost use Rattle.driver_core.specs.Bytes.{journal};
ghost use Rattle.driver_core.specs.Apply.{undoing, flushed, undo_turns, undos_flushed, undo_of};
ghost use Rattle.driver_undo.specs.Undos.{undone};
ghost use Rattle.driver_undo.specs.Internal.{turned, after_flush, after, undo_at, turn_of, UndoReady};

use calls::Call;
use driver_calls::HEADER_BYTES;
use index_types::Undone;

// What an undo leaves, whether a flush came last, and whether the undos go on.
#[derive(Clone, Copy)]
pub struct Turned {
    pub undone: Undone,
    pub fresh: bool,
    pub on: bool,
}

// Whether no flush lifts a refusal: it lifts 16 and 21, unless it came last.
fn is_final(fresh: bool, code: u8) -> bool
    ensures { result ≡ final fresh code }
{
    if fresh {
        return true;
    }
    if code == refusal::STAGING_FULL {
        return false;
    }
    if code == refusal::DELETED_FULL {
        return false;
    }
    true
}

// Flushes the staged and the deleted spills of all parents.
pub fn flush_all(
    parents: usize,
    ids: &mut [u8],
    numbers: &mut [i64],
    lengths: &mut [usize],
    spills: &mut [i32],
    staged: &mut [u8],
    table: &mut [u8],
    deleted: &mut [u8],
    entries: &[u8],
    hints: &mut [u16],
    u: Undone,
) -> Undone
    requires { UndoReady parents (undone u ids.old numbers.old lengths.old spills.old staged.old table.old deleted.old entries.now) }
    ensures { undone result ids.new numbers.new lengths.new spills.new staged.new table.new deleted.new entries.now
        ≡ flushed (state ids.old numbers.old lengths.old spills.old (lists_with u.counts staged.old table.old deleted.old)) (journal entries.now u.used u.standing) }
{
    let counts = u.counts;
    let s = run_steps::step(
        Call::Flush,
        ids,
        numbers,
        lengths,
        spills,
        staged,
        table,
        deleted,
        hints,
        counts,
    );
    let said = s.said;
    let after = s.counts;
    Undone {
        counts: after,
        used: u.used,
        standing: u.standing,
        code: said.code,
    }
}

// The newest standing call is undone and leaves the journal; where no call stands there, 31.
fn undo_newest(
    parents: usize,
    ids: &mut [u8],
    numbers: &mut [i64],
    lengths: &mut [usize],
    spills: &mut [i32],
    staged: &mut [u8],
    table: &mut [u8],
    deleted: &mut [u8],
    entries: &[u8],
    hints: &mut [u16],
    u: Undone,
) -> Undone
    requires { UndoReady parents (undone u ids.old numbers.old lengths.old spills.old staged.old table.old deleted.old entries.now) × (0 < u.standing) }
    ensures { undone result ids.new numbers.new lengths.new spills.new staged.new table.new deleted.new entries.now
        ≡ undo_at parents (undone u ids.old numbers.old lengths.old spills.old staged.old table.old deleted.old entries.now) }
{
    let counts = u.counts;
    let used = u.used;
    let standing = u.standing;
    let read = driver_calls::newest_read(entries, used, parents);
    if !driver_calls::is_call(read) {
        return Undone {
            counts,
            used,
            standing,
            code: refusal::UNKNOWN_CALL,
        };
    }
    let s = driver_steps::step(
        driver_steps::undone_by(read),
        entries,
        ids,
        numbers,
        lengths,
        spills,
        staged,
        table,
        deleted,
        hints,
        counts,
    );
    let said = s.said;
    let after = s.counts;
    let code = said.code;
    if code == 0 {
        let size = driver_calls::size_at(entries, used - HEADER_BYTES);
        return Undone {
            counts: after,
            used: used - size,
            standing: standing - 1,
            code,
        };
    }
    Undone {
        counts: after,
        used,
        standing,
        code,
    }
}

// One undo, and where it is refused a flush that may lift that; at the mark the undos end.
fn turn(
    parents: usize,
    mark: usize,
    ids: &mut [u8],
    numbers: &mut [i64],
    lengths: &mut [usize],
    spills: &mut [i32],
    staged: &mut [u8],
    table: &mut [u8],
    deleted: &mut [u8],
    entries: &[u8],
    hints: &mut [u16],
    t: Turned,
) -> Turned
    requires { UndoReady parents (undone t.undone ids.old numbers.old lengths.old spills.old staged.old table.old deleted.old entries.now) }
    ensures { turned result ids.new numbers.new lengths.new spills.new staged.new table.new deleted.new entries.now
        ≡ turn_of parents mark (turned t ids.old numbers.old lengths.old spills.old staged.old table.old deleted.old entries.now) }
{
    let u = t.undone;
    let fresh = t.fresh;
    let counts = u.counts;
    let used = u.used;
    let standing = u.standing;
    if standing <= mark {
        return Turned {
            undone: Undone {
                counts,
                used,
                standing,
                code: 0,
            },
            fresh,
            on: false,
        };
    }
    let v = undo_newest(
        parents, ids, numbers, lengths, spills, staged, table, deleted, entries, hints, u,
    );
    let code = v.code;
    if code == 0 {
        return Turned {
            undone: v,
            fresh: false,
            on: true,
        };
    }
    if is_final(fresh, code) {
        return Turned {
            undone: v,
            fresh,
            on: false,
        };
    }
    let w = flush_all(
        parents, ids, numbers, lengths, spills, staged, table, deleted, entries, hints, v,
    );
    let on = w.code == 0;
    Turned {
        undone: w,
        fresh: true,
        on,
    }
}

// The undos down to the mark, after a flush.
pub fn undo_ready(
    parents: usize,
    mark: usize,
    ids: &mut [u8],
    numbers: &mut [i64],
    lengths: &mut [usize],
    spills: &mut [i32],
    staged: &mut [u8],
    table: &mut [u8],
    deleted: &mut [u8],
    entries: &[u8],
    hints: &mut [u16],
    u: Undone,
) -> Undone
    requires { UndoReady parents (undone u ids.old numbers.old lengths.old spills.old staged.old table.old deleted.old entries.now) }
    ensures { undone result ids.new numbers.new lengths.new spills.new staged.new table.new deleted.new entries.now
        ≡ undo_turns parents (u.standing * 2) mark true (state ids.old numbers.old lengths.old spills.old (lists_with u.counts staged.old table.old deleted.old)) (journal entries.now u.used u.standing) }
{
    let mut t = Turned {
        undone: u,
        fresh: true,
        on: true,
    };
    while t.on {
        t = turn(
            parents, mark, ids, numbers, lengths, spills, staged, table, deleted, entries, hints, t,
        );
    }
    t.undone
}

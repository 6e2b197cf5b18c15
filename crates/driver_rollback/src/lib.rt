// A driver's standing calls undone down to a mark, with the flush at the change.
#![tactic(auto)]

ghost use Rattle.std.specs.Prelude.{◌≡◌};
ghost use Rattle.call_steps.specs.State.{state};
ghost use Rattle.call_steps.specs.Steps.{lists_with};
ghost use Rattle.driver_core.specs.Bytes.{journal};
ghost use Rattle.driver_core.specs.Apply.{flushed, undos_flushed, undo_of};
ghost use Rattle.driver_undo.specs.Undos.{undone};
ghost use Rattle.driver_undo.specs.Internal.{UndoReady};

use index_types::{SpillCounts, Undone};

// A flush, the undos down to the mark, and a flush behind them, until one is refused.
fn undo_flushed(
    parents: usize,
    mark: usize,
    ids: &mut [u8],
    numbers: &mut [i64],
    lengths: &mut [usize],
    spills: &mut [i32],
    staged: &mut [u8],
    table: &mut [u8],
    deleted: &mut [u8],
    entries: &[u8],
    hints: &mut [u16],
    u: Undone,
) -> Undone
    requires { UndoReady parents (undone u ids.old numbers.old lengths.old spills.old staged.old table.old deleted.old entries.now) }
    ensures { undone result ids.new numbers.new lengths.new spills.new staged.new table.new deleted.new entries.now
        ≡ undos_flushed parents mark u.standing (flushed (state ids.old numbers.old lengths.old spills.old (lists_with u.counts staged.old table.old deleted.old)) (journal entries.now u.used u.standing)) }
{
    let f = driver_undo::flush_all(
        parents, ids, numbers, lengths, spills, staged, table, deleted, entries, hints, u,
    );
    if f.code != 0 {
        return f;
    }
    let v = driver_undo::undo_ready(
        parents, mark, ids, numbers, lengths, spills, staged, table, deleted, entries, hints, f,
    );
    if v.code != 0 {
        return v;
    }
    driver_undo::flush_all(
        parents, ids, numbers, lengths, spills, staged, table, deleted, entries, hints, v,
    )
}

// The same with hints of where the table's records stand (`record_hints`), where it has many.
fn undo_noted(
    parents: usize,
    mark: usize,
    ids: &mut [u8],
    numbers: &mut [i64],
    lengths: &mut [usize],
    spills: &mut [i32],
    staged: &mut [u8],
    table: &mut [u8],
    deleted: &mut [u8],
    entries: &[u8],
    u: Undone,
) -> Undone
    requires { UndoReady parents (undone u ids.old numbers.old lengths.old spills.old staged.old table.old deleted.old entries.now) }
    ensures { undone result ids.new numbers.new lengths.new spills.new staged.new table.new deleted.new entries.now
        ≡ undos_flushed parents mark u.standing (flushed (state ids.old numbers.old lengths.old spills.old (lists_with u.counts staged.old table.old deleted.old)) (journal entries.now u.used u.standing)) }
{
    let counts = u.counts;
    let held = counts.table;
    if held.count <= record_hints::FEW_RECORDS {
        let mut none = [0u16; 1];
        return undo_flushed(
            parents,
            mark,
            ids,
            numbers,
            lengths,
            spills,
            staged,
            table,
            deleted,
            entries,
            &mut none[..0],
            u,
        );
    }
    let mut hints = [0u16; record_hints::BATCH_HINTS];
    run_steps::note_table(counts, table, &mut hints);
    undo_flushed(
        parents, mark, ids, numbers, lengths, spills, staged, table, deleted, entries, &mut hints,
        u,
    )
}

// Takes the newest standing calls back, one by one, until no more stand than the mark says: refusal 25 is tested once; a flush before the undos and one behind
// them; an undo that says 16 or 21 is tried once more after a flush.
pub fn undo_to(
    parents: usize,
    mark: usize,
    ids: &mut [u8],
    numbers: &mut [i64],
    lengths: &mut [usize],
    spills: &mut [i32],
    staged: &mut [u8],
    table: &mut [u8],
    deleted: &mut [u8],
    entries: &[u8],
    counts: SpillCounts,
    used: usize,
    standing: usize,
) -> Undone
    ensures { undone result ids.new numbers.new lengths.new spills.new staged.new table.new deleted.new entries.now
        ≡ undo_of parents mark (state ids.old numbers.old lengths.old spills.old (lists_with counts staged.old table.old deleted.old)) (journal entries.now used standing) }
{
    if driver_batch::driver_ok(
        parents, ids, numbers, lengths, spills, staged, table, deleted, entries, counts, used,
        standing,
    ) {
        let u = Undone {
            counts,
            used,
            standing,
            code: 0,
        };
        if standing <= mark {
            return u;
        }
        return undo_noted(
            parents, mark, ids, numbers, lengths, spills, staged, table, deleted, entries, u,
        );
    }
    Undone {
        counts,
        used,
        standing,
        code: refusal::BUFFERS,
    }
}

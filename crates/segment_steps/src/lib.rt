// An append, a spend, an unspend, a pop and a flush of the runner on the state of all parents, once refusal 25 is tested.
#![tactic(auto)]

ghost use Rattle.std.specs.Prelude.{◌≡◌, true};
ghost use Rattle.segment_id.specs.declared.Kind.TheVariants.{Box};
ghost use Rattle.buffer_core.specs.Edition.{edition_1};
ghost use Rattle.buffer_core.specs.Append.{append_ok};
ghost use Rattle.buffer_core.specs.Pop.{pop_ok, lists_ok};
ghost use Rattle.buffer_core.specs.Flip.{flip_ok};
ghost use Rattle.call_steps.specs.State.{Within, head_counts, head_of};
ghost use Rattle.call_steps.specs.Steps.{lists_with, count_step, head_step, append_by, flip_step, flip_by, pop_step, pop_by, flush_step, flush_by};

use buffer_core::Direction;
use call_steps::Stepped;
use index_types::{RowEdition, SEGMENT_THRESHOLD, SpillCounts};
use segment_id::Kind;

// Appends a number to a head of a parent.
pub fn append_step(
    kind: Kind,
    p: usize,
    number: i64,
    ids: &[u8],
    numbers: &mut [i64],
    lengths: &mut [usize],
    spills: &mut [i32],
    staged: &mut [u8],
    counts: SpillCounts,
) -> Stepped
    requires { Within p ids.now numbers.old lengths.old spills.old
        × (append_ok edition_1 (head_counts kind p lengths.old spills.old) counts.staged (head_of kind p numbers.old) staged.old ≡ true) }
    ensures { head_step (count_step result lengths.new spills.new) numbers.new staged.new
        ≡ append_by edition_1 kind p number ids.now numbers.old lengths.old spills.old staged.old counts }
{
    let staged_counts = counts.staged;
    let id = call_steps::parent_id(ids, p);
    let h = call_steps::read_counts(kind, p, lengths, spills);
    let a = call_steps::head_at(kind, p);
    let e = a + SEGMENT_THRESHOLD;
    let r = append_core::append(
        RowEdition::One,
        kind,
        &id,
        h,
        number,
        staged_counts,
        &mut numbers[a..e],
        staged,
    );
    call_steps::after_append(r, kind, p, counts, lengths, spills)
}

// Spends or unspends a box of a parent. The hints say where the table's records may stand (`record_hints`).
pub fn flip_step(
    direction: Direction,
    p: usize,
    target: i64,
    ids: &[u8],
    numbers: &mut [i64],
    lengths: &[usize],
    spills: &[i32],
    staged: &mut [u8],
    table: &[u8],
    hints: &[u16],
    counts: SpillCounts,
) -> Stepped
    requires { Within p ids.now numbers.old lengths.now spills.now
        × (flip_ok edition_1 (head_counts Box p lengths.now spills.now) counts.staged staged.old counts.table table.now (head_of Box p numbers.old) ≡ true) }
    ensures { flip_step result numbers.new staged.new
        ≡ flip_by edition_1 direction p target ids.now numbers.old lengths.now spills.now staged.old table.now counts }
{
    let staged_counts = counts.staged;
    let table_counts = counts.table;
    let id = call_steps::parent_id(ids, p);
    let h = call_steps::read_counts(Kind::Box, p, lengths, spills);
    let a = call_steps::head_at(Kind::Box, p);
    let e = a + SEGMENT_THRESHOLD;
    let r = flip_core::flip(
        RowEdition::One,
        direction,
        &id,
        h,
        target,
        staged_counts,
        staged,
        table_counts,
        table,
        hints,
        &mut numbers[a..e],
    );
    call_steps::after_flip(r, counts)
}

// Takes the newest number of a head of a parent.
pub fn pop_step(
    kind: Kind,
    p: usize,
    ids: &[u8],
    numbers: &mut [i64],
    lengths: &mut [usize],
    spills: &mut [i32],
    staged: &mut [u8],
    table: &[u8],
    deleted: &mut [u8],
    counts: SpillCounts,
) -> Stepped
    requires { Within p ids.now numbers.old lengths.old spills.old
        × (pop_ok edition_1 (head_counts kind p lengths.old spills.old) (lists_with counts staged.old table.now deleted.old) (head_of kind p numbers.old) ≡ true) }
    ensures { pop_step (count_step result lengths.new spills.new) numbers.new staged.new deleted.new
        ≡ pop_by edition_1 kind p ids.now numbers.old lengths.old spills.old (lists_with counts staged.old table.now deleted.old) }
{
    let staged_counts = counts.staged;
    let table_counts = counts.table;
    let deleted_counts = counts.deleted;
    let id = call_steps::parent_id(ids, p);
    let h = call_steps::read_counts(kind, p, lengths, spills);
    let a = call_steps::head_at(kind, p);
    let e = a + SEGMENT_THRESHOLD;
    let r = pop_core::pop(
        RowEdition::One,
        kind,
        &id,
        h,
        &mut numbers[a..e],
        staged_counts,
        staged,
        table_counts,
        table,
        deleted_counts,
        deleted,
    );
    call_steps::after_pop(r, kind, p, counts, lengths, spills)
}

// Flushes the staged and the deleted spills of all parents. The hints say where the table's records may stand, and stay so.
pub fn flush_step(
    table: &mut [u8],
    staged: &mut [u8],
    deleted: &mut [u8],
    hints: &mut [u16],
    counts: SpillCounts,
) -> Stepped
    requires { lists_ok edition_1 (lists_with counts staged.old table.old deleted.old) ≡ true }
    ensures { flush_step result table.new staged.new deleted.new
        ≡ flush_by edition_1 (lists_with counts staged.old table.old deleted.old) }
{
    let staged_counts = counts.staged;
    let table_counts = counts.table;
    let deleted_counts = counts.deleted;
    let r = flush_core::flush(
        RowEdition::One,
        table,
        table_counts,
        staged,
        staged_counts,
        deleted,
        deleted_counts,
        hints,
    );
    call_steps::after_flush(r, counts)
}

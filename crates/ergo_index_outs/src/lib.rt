// What a call answers goes to the outs of its export, and its code is the result; a refusal sets no out.
#![tactic(auto)]

ghost use Rattle.std.specs.Prelude.{ℕ, ◌≡◌, List, ℤ};
ghost use Rattle.ergo_index_outs.specs.Outs.{append_out, append_by, pop_out, pop_by, flip_out, flip_by, tally_out, tally_export, flush_out, flush_by};

use index_types::{Appended, Flipped, Flushed, Popped, Tallied};

// An append.
pub fn append_told(
    appended: Appended,
    len: &mut usize,
    spills: &mut i32,
    staged_count: &mut usize,
) -> u8
    ensures { (head : List ℤ) (staged : List ℕ) → append_out result len.new spills.new staged_count.new head staged
        ≡ append_by appended len.old spills.old staged_count.old head staged }
{
    match appended {
        Ok((head_after, staged_after)) => {
            let spills_after = head_after.spills;
            *len = head_after.len;
            *spills = spills_after;
            *staged_count = staged_after.count;
            0
        }
        Err(code) => code,
    }
}

// A pop.
pub fn pop_told(
    popped: Popped,
    number: &mut i64,
    len: &mut usize,
    spills: &mut i32,
    staged_count: &mut usize,
    deleted_count: &mut usize,
) -> u8
    ensures { (head : List ℤ) (staged deleted : List ℕ)
        → pop_out result number.new len.new spills.new staged_count.new deleted_count.new head staged deleted
        ≡ pop_by popped number.old len.old spills.old staged_count.old deleted_count.old head staged deleted }
{
    match popped {
        Ok((last, after, staged_after, deleted_after)) => {
            let spills_after = after.spills;
            *number = last;
            *len = after.len;
            *spills = spills_after;
            *staged_count = staged_after.count;
            *deleted_count = deleted_after.count;
            0
        }
        Err(code) => code,
    }
}

// A spend or an unspend.
pub fn flip_told(flipped: Flipped, staged_count: &mut usize) -> u8
    ensures { (head : List ℤ) (staged : List ℕ) → flip_out result staged_count.new head staged ≡ flip_by flipped staged_count.old head staged }
{
    match flipped {
        Ok(after) => {
            *staged_count = after.count;
            0
        }
        Err(code) => code,
    }
}

// A tally.
pub fn tally_told(
    tallied: Tallied,
    unspent: &mut usize,
    spent: &mut usize,
    unknown: &mut usize,
) -> u8
    ensures { tally_out result unspent.new spent.new unknown.new ≡ tally_export unspent.old spent.old unknown.old tallied }
{
    match tallied {
        Ok(tally) => {
            *unspent = tally.unspent;
            *spent = tally.spent;
            *unknown = tally.unknown;
            0
        }
        Err(code) => code,
    }
}

// A flush.
pub fn flush_told(
    flushed: Flushed,
    staged_count: &mut usize,
    table_count: &mut usize,
    deleted_count: &mut usize,
) -> u8
    ensures { (staged table deleted : List ℕ)
        → flush_out result staged_count.new table_count.new deleted_count.new staged table deleted
        ≡ flush_by flushed staged_count.old table_count.old deleted_count.old staged table deleted }
{
    match flushed {
        Ok((table_after, staged_after, deleted_after)) => {
            *staged_count = staged_after.count;
            *table_count = table_after.count;
            *deleted_count = deleted_after.count;
            0
        }
        Err(code) => code,
    }
}

// One parent's box numbers as one list: a borrowed list of 4,096 numbers or more beside its count, which is borrowed too.
#![tactic(auto)]

ghost use Rattle.std.specs.Prelude.{ℕ, ◌≡◌, true, false, List, ℤ};
ghost use Rattle.flat_list.specs.Flat.{flat_append, flat_flip, flat_pop};
ghost use Rattle.ergo_index_flat.specs.Exports.{change_out, change_by, change_export, pop_out, pop_export};

use index_types::{BoxNumber, FlatChanged};

// The count after the call goes to the out, and the code is the result; a refusal leaves the count.
fn told(changed: FlatChanged, count: &mut usize) -> u8
    ensures { (list : List ℤ) → change_out result count.new list ≡ change_by changed count.old list }
{
    match changed {
        Ok(after) => {
            *count = after;
            0
        }
        Err(code) => code,
    }
}

// Puts a box number at the end of the list.
#[unsafe(no_mangle)]
pub extern "C" fn ergo_index_flat_append_box(count: &mut usize, list: &mut [i64], number: i64) -> u8
    ensures { change_out result count.new list.new ≡ change_export count.old (flat_append count.old number list.old) }
{
    let changed = flat_list::append_box(*count, list, BoxNumber(number));
    told(changed, count)
}

// Marks one box as spent.
#[unsafe(no_mangle)]
pub extern "C" fn ergo_index_flat_spend_box(count: &mut usize, list: &mut [i64], target: i64) -> u8
    ensures { change_out result count.new list.new ≡ change_export count.old (flat_flip true count.old target list.old) }
{
    let changed = flat_list::spend_box(*count, list, BoxNumber(target));
    told(changed, count)
}

// Takes the mark of one box back.
#[unsafe(no_mangle)]
pub extern "C" fn ergo_index_flat_unspend_box(
    count: &mut usize,
    list: &mut [i64],
    target: i64,
) -> u8
    ensures { change_out result count.new list.new ≡ change_export count.old (flat_flip false count.old target list.old) }
{
    let changed = flat_list::unspend_box(*count, list, BoxNumber(target));
    told(changed, count)
}

// Takes the last box number of the list; it goes to the out.
#[unsafe(no_mangle)]
pub extern "C" fn ergo_index_flat_pop_box(
    count: &mut usize,
    list: &mut [i64],
    number: &mut i64,
) -> u8
    ensures { pop_out result number.new count.new list.new
        ≡ pop_export number.old count.old (flat_pop count.old list.old) }
{
    let popped = flat_list::pop_box(*count, list);
    match popped {
        Ok((last, left)) => {
            let popped_number = last.0;
            *number = popped_number;
            *count = left;
            0
        }
        Err(code) => code,
    }
}

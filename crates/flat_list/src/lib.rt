// The box numbers of one parent as one list of at most 4,096: no rows, no keys and no staged spills. It is checked and searched as a head is.
#![tactic(auto)]

ghost use Rattle.std.specs.Prelude.{◌≡◌, true, false, ◌-◌, ◌≤◌, ◌<◌, pos, length, take, get_or, set};
ghost use Rattle.entries.specs.Order.{order_ok};
ghost use Rattle.flat_list.specs.Flat.{changing, popping, flat_ok, flat_append, flat_flip, flip_target, flat_pop};

use entries::Position;
use index_types::{BoxNumber, FLAT_LIMIT, FlatChanged, FlatPopped};

// Whether so many numbers may stand in the list, and the list has its places.
fn flat_ok(count: usize, list: &[i64]) -> bool
    ensures { result ≡ flat_ok count list.now }
{
    if FLAT_LIMIT < count {
        return false;
    }
    FLAT_LIMIT <= list.len()
}

// Puts a number at the end of the list.
pub fn append_box(count: usize, list: &mut [i64], number: BoxNumber) -> FlatChanged
    ensures { changing result list.new ≡ flat_append count number.0 list.old }
{
    let n = number.0;
    let negative = signed::is_negative(n);
    let full = FLAT_LIMIT <= count;
    if !flat_ok(count, list) {
        return Err(refusal::BUFFERS);
    }
    if negative {
        return Err(refusal::NEGATIVE_NUMBER);
    }
    if full {
        return Err(refusal::FLAT_LIST_FULL);
    }
    list[count] = n;
    Ok(count + 1)
}

// Negates the first entry of the target and the wanted sign in a list that is in order.
fn flip_target(count: usize, list: &mut [i64], target: u64, spend: bool) -> FlatChanged
    requires { (count ≤ length list.old) × (order_ok (take count list.old) ≡ true) × (target < 9223372036854775808) }
    ensures { changing result list.new ≡ flip_target spend count target list.old }
{
    let position = entry_flips::flip_position(list, count, target, spend);
    match position {
        Position::At(i) => {
            entry_flips::flip_at(list, i);
            Ok(count)
        }
        Position::Seen => Err(refusal::NO_COPY_OF_THAT_SIGN),
        Position::Absent => Err(refusal::TARGET_NOT_SEEN),
    }
}

// A spend or an unspend.
fn flip(count: usize, list: &mut [i64], target: i64, spend: bool) -> FlatChanged
    ensures { changing result list.new ≡ flat_flip spend count target list.old }
{
    let size = signed::magnitude(target);
    if !flat_ok(count, list) {
        return Err(refusal::BUFFERS);
    }
    if 9223372036854775808 <= size {
        return Err(refusal::TARGET_IS_MINIMUM);
    }
    if !entry_order::order_ok(list, count) {
        return Err(refusal::HEAD_OUT_OF_ORDER);
    }
    flip_target(count, list, size, spend)
}

// Marks one box as spent: the first entry of the number that is not negative is negated.
pub fn spend_box(count: usize, list: &mut [i64], target: BoxNumber) -> FlatChanged
    ensures { changing result list.new ≡ flat_flip true count target.0 list.old }
{
    flip(count, list, target.0, true)
}

// Takes the mark back: the first entry of the number that is not positive is negated.
pub fn unspend_box(count: usize, list: &mut [i64], target: BoxNumber) -> FlatChanged
    ensures { changing result list.new ≡ flat_flip false count target.0 list.old }
{
    flip(count, list, target.0, false)
}

// Takes the last of the list's numbers; its place becomes 0.
fn take_last(list: &mut [i64], count: usize) -> i64
    requires { (0 < count) × (count ≤ length list.old) }
    ensures { (result ≡ get_or list.old (count - 1) (pos 0)) × (list.new ≡ set list.old (count - 1) (pos 0)) }
{
    let at = count - 1;
    let last = list[at];
    list[at] = 0;
    last
}

// Takes the last number of the list; its place becomes 0.
pub fn pop_box(count: usize, list: &mut [i64]) -> FlatPopped
    ensures { popping result list.new ≡ flat_pop count list.old }
{
    if !flat_ok(count, list) {
        return Err(refusal::BUFFERS);
    }
    if count == 0 {
        return Err(refusal::NOTHING_TO_POP);
    }
    let last = take_last(list, count);
    Ok((BoxNumber(last), count - 1))
}

// A balance changed in place: `add_box` and `subtract_box` by mutable reference, as the Rust has them.
#![tactic(auto)]

ghost use Rattle.std.specs.Prelude.{◌≡◌};
ghost use Rattle.balance.specs.Boxes.{add_box, subtract_box};
ghost use Rattle.balance_in_place.specs.InPlace.{left};

use balance::{Balance, Outcome};
use refusal::Answer;

// A balance with a box added, and the answer; the old balance where it is refused.
fn added(held: Balance, nanos: i64, ids: &[u8], amounts: &[i64], count: usize) -> Outcome
    ensures { result ≡ add_box held nanos ids.now amounts.now count }
{
    balance::add_box(held, nanos, ids, amounts, count)
}

// The same with a box subtracted.
fn subtracted(held: Balance, nanos: i64, ids: &[u8], amounts: &[i64], count: usize) -> Outcome
    ensures { result ≡ subtract_box held nanos ids.now amounts.now count }
{
    balance::subtract_box(held, nanos, ids, amounts, count)
}

// Adds a box to a borrowed balance; a refusal leaves it as it was.
pub fn add_box(held: &mut Balance, nanos: i64, ids: &[u8], amounts: &[i64], count: usize) -> Answer
    ensures { left result held.new ≡ add_box held.old nanos ids.now amounts.now count }
{
    let old = *held;
    let more = added(old, nanos, ids, amounts, count);
    *held = more.balance;
    more.answer
}

// Subtracts a box from a borrowed balance; a refusal leaves it as it was.
pub fn subtract_box(
    held: &mut Balance,
    nanos: i64,
    ids: &[u8],
    amounts: &[i64],
    count: usize,
) -> Answer
    ensures { left result held.new ≡ subtract_box held.old nanos ids.now amounts.now count }
{
    let old = *held;
    let rest = subtracted(old, nanos, ids, amounts, count);
    *held = rest.balance;
    rest.answer
}

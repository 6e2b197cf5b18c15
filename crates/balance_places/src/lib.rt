// A box added to or subtracted from the balance of a parent in its places, among those of all parents. A refusal leaves them as they were.
#![tactic(auto)]

ghost use Rattle.std.specs.Prelude.{◌≡◌, ◌+◌, ◌*◌, ◌≤◌, length};
ghost use borrow.Rule.Slice.PartMut.{mid_of};
ghost use Rattle.index_types.specs.Limits.{token_limit, token_id_bytes};
ghost use Rattle.balance_tokens.specs.Tokens.{change_tokens};
ghost use Rattle.balance.specs.Boxes.{change_box};
ghost use Rattle.call_steps.specs.State.{balance_of, parent_numbers, parent_ids};
ghost use Rattle.call_steps.specs.Steps.{change_step, changed_by};
ghost use Rattle.balance_places.specs.Internal.{left, placed};

use balance_tokens::Counted;
use call_steps::{AMOUNTS_AT, NANOS_AT, PARENT_IDS, PARENT_NUMBERS, Said};
use index_types::{TOKEN_ID_BYTES, TOKEN_LIMIT};

// Adds or subtracts the n tokens of a box, where the ids held begin at i and the amounts at a.
fn change_tokens(
    adding: bool,
    i: usize,
    a: usize,
    held: usize,
    box_ids: &[u8],
    box_amounts: &[i64],
    n: usize,
    ids: &mut [u8],
    numbers: &mut [i64],
) -> Counted
    requires { (i + token_id_bytes ≤ length ids.old) × (a + token_limit ≤ length numbers.old) × (held ≤ token_limit)
        × (n * 32 ≤ length box_ids.now) × (n ≤ length box_amounts.now) }
    ensures { left result ids.new numbers.new
        ≡ placed i a ids.old numbers.old
        (change_tokens adding box_ids.now box_amounts.now 0 n
        (record { ids = mid_of i token_id_bytes ids.old; amounts = mid_of a token_limit numbers.old; count = held })) }
{
    let j = i + TOKEN_ID_BYTES;
    let e = a + TOKEN_LIMIT;
    kept_tokens::change_kept(
        adding,
        &mut ids[i..j],
        &mut numbers[a..e],
        held,
        box_ids,
        box_amounts,
        n,
    )
}

// Adds or subtracts a box of n tokens: nanoErgs first, then the tokens.
pub fn change_box(
    adding: bool,
    p: usize,
    nanos: i64,
    box_ids: &[u8],
    box_amounts: &[i64],
    n: usize,
    ids: &mut [u8],
    numbers: &mut [i64],
    lengths: &mut [usize],
) -> Said
    requires { (p * parent_ids + parent_ids ≤ length ids.old) × (p * parent_numbers + parent_numbers ≤ length numbers.old) × (p * 3 + 3 ≤ length lengths.old) }
    ensures { change_step result ids.new numbers.new lengths.new
        ≡ changed_by (change_box adding (balance_of p ids.old numbers.old lengths.old) nanos box_ids.now box_amounts.now n)
        p ids.old numbers.old lengths.old }
{
    let last = p * 3 + 2;
    let held = lengths[last];
    if !balance::buffers_ok(held, box_ids, box_amounts, n) {
        return call_steps::says(refusal::BUFFERS);
    }
    let at = p * PARENT_NUMBERS + NANOS_AT;
    let old = numbers[at];
    match balance::change_nanos(adding, old, nanos) {
        Some(sum) => {
            let i = p * PARENT_IDS + 32;
            let a = p * PARENT_NUMBERS + AMOUNTS_AT;
            match change_tokens(adding, i, a, held, box_ids, box_amounts, n, ids, numbers) {
                Ok(m) => {
                    numbers[at] = sum;
                    lengths[last] = m;
                    call_steps::says(0)
                }
                Err(code) => call_steps::says(code),
            }
        }
        None => call_steps::says(refusal::AMOUNT_OUT_OF_RANGE),
    }
}

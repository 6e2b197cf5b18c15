// A balance changed in its borrowed parts: ids, amounts, count and nanoErgs. A refusal leaves them as they were.
#![tactic(auto)]

ghost use Rattle.std.specs.Prelude.{◌≡◌, ◌*◌, ◌≤◌, length};
ghost use Rattle.index_types.specs.Limits.{token_limit};
ghost use Rattle.balance_tokens.specs.Tokens.{change_tokens};
ghost use Rattle.balance.specs.Boxes.{change_box, add_box, subtract_box};
ghost use Rattle.balance.specs.Parts.{Kept, flat, outcome};

use balance_tokens::Counted;
use index_types::{TOKEN_ID_BYTES, TOKEN_LIMIT};
use refusal::Answer;

// Adds or subtracts the n tokens of a box; a refusal leaves the arrays as they were.
fn change_held(
    adding: bool,
    table: &mut [u8; TOKEN_ID_BYTES],
    sums: &mut [i64; TOKEN_LIMIT],
    count: usize,
    ids: &[u8],
    amounts: &[i64],
    n: usize,
) -> Counted
    requires { (count ≤ token_limit) × (n * 32 ≤ length ids.now) × (n ≤ length amounts.now) }
    ensures { Kept result table.old sums.old table.new sums.new
        (change_tokens adding ids.now amounts.now 0 n (record { ids = table.old; amounts = sums.old; count = count })) }
{
    kept_tokens::change_kept(adding, table, sums, count, ids, amounts, n)
}

// Adds or subtracts a box: nanoErgs first, then the tokens.
fn change_parts(
    adding: bool,
    held_ids: &mut [u8; TOKEN_ID_BYTES],
    held_amounts: &mut [i64; TOKEN_LIMIT],
    held_count: &mut usize,
    held_nanos: &mut i64,
    nanos: i64,
    ids: &[u8],
    amounts: &[i64],
    count: usize,
) -> Answer
    ensures { outcome result (flat held_ids.new held_amounts.new held_count.new held_nanos.new)
        ≡ change_box adding (flat held_ids.old held_amounts.old held_count.old held_nanos.old) nanos ids.now amounts.now count }
{
    let held = *held_count;
    if !balance::buffers_ok(held, ids, amounts, count) {
        return Err(refusal::BUFFERS);
    }
    let old = *held_nanos;
    match balance::change_nanos(adding, old, nanos) {
        Some(sum) => {
            match change_held(adding, held_ids, held_amounts, held, ids, amounts, count) {
                Ok(n) => {
                    *held_count = n;
                    *held_nanos = sum;
                    Ok(())
                }
                Err(code) => Err(code),
            }
        }
        None => Err(refusal::AMOUNT_OUT_OF_RANGE),
    }
}

// Adds a box: its nanoErgs, then its tokens in list order; new ids go last.
pub fn add_box(
    held_ids: &mut [u8; TOKEN_ID_BYTES],
    held_amounts: &mut [i64; TOKEN_LIMIT],
    held_count: &mut usize,
    held_nanos: &mut i64,
    nanos: i64,
    ids: &[u8],
    amounts: &[i64],
    count: usize,
) -> Answer
    ensures { outcome result (flat held_ids.new held_amounts.new held_count.new held_nanos.new)
        ≡ add_box (flat held_ids.old held_amounts.old held_count.old held_nanos.old) nanos ids.now amounts.now count }
{
    change_parts(
        true,
        held_ids,
        held_amounts,
        held_count,
        held_nanos,
        nanos,
        ids,
        amounts,
        count,
    )
}

// Subtracts a box: its nanoErgs, which stop at 0, then its tokens in list order; a token at 0 or below is dropped, an unknown id ignored.
pub fn subtract_box(
    held_ids: &mut [u8; TOKEN_ID_BYTES],
    held_amounts: &mut [i64; TOKEN_LIMIT],
    held_count: &mut usize,
    held_nanos: &mut i64,
    nanos: i64,
    ids: &[u8],
    amounts: &[i64],
    count: usize,
) -> Answer
    ensures { outcome result (flat held_ids.new held_amounts.new held_count.new held_nanos.new)
        ≡ subtract_box (flat held_ids.old held_amounts.old held_count.old held_nanos.old) nanos ids.now amounts.now count }
{
    change_parts(
        false,
        held_ids,
        held_amounts,
        held_count,
        held_nanos,
        nanos,
        ids,
        amounts,
        count,
    )
}

// Balances: 128 ids of 32 bytes, their amounts, the count and the nanoErgs, all borrowed and changed in place. A refusal leaves them as they were.
#![tactic(auto)]

ghost use Rattle.std.specs.Prelude.{◌≡◌};
ghost use Rattle.refusal.specs.Refusal.{code_of};
ghost use Rattle.balance.specs.Boxes.{add_box, subtract_box};
ghost use Rattle.balance.specs.Parts.{flat};
ghost use Rattle.ergo_index_balances.specs.Balances.{balance_out, balance_export};

use index_types::{TOKEN_ID_BYTES, TOKEN_LIMIT};
use refusal::Answer;

// The code of an answer.
fn code_of(answer: Answer) -> u8
    ensures { result ≡ code_of answer }
{
    match answer {
        Ok(()) => 0,
        Err(code) => code,
    }
}

// Adds a box: its nanoErgs, then its tokens in list order; new ids go last.
#[unsafe(no_mangle)]
pub extern "C" fn ergo_index_add_box(
    held_ids: &mut [u8; TOKEN_ID_BYTES],
    held_amounts: &mut [i64; TOKEN_LIMIT],
    held_count: &mut usize,
    held_nanos: &mut i64,
    nanos: i64,
    ids: &[u8],
    amounts: &[i64],
    count: usize,
) -> u8
    ensures { balance_out result (flat held_ids.new held_amounts.new held_count.new held_nanos.new)
        ≡ balance_export (add_box (flat held_ids.old held_amounts.old held_count.old held_nanos.old) nanos ids.now amounts.now count) }
{
    let added = balance_parts::add_box(
        held_ids,
        held_amounts,
        held_count,
        held_nanos,
        nanos,
        ids,
        amounts,
        count,
    );
    code_of(added)
}

// Subtracts a box: its nanoErgs, which stop at 0, then its tokens in list order; a token at 0 or below is dropped, an unknown id ignored.
#[unsafe(no_mangle)]
pub extern "C" fn ergo_index_subtract_box(
    held_ids: &mut [u8; TOKEN_ID_BYTES],
    held_amounts: &mut [i64; TOKEN_LIMIT],
    held_count: &mut usize,
    held_nanos: &mut i64,
    nanos: i64,
    ids: &[u8],
    amounts: &[i64],
    count: usize,
) -> u8
    ensures { balance_out result (flat held_ids.new held_amounts.new held_count.new held_nanos.new)
        ≡ balance_export (subtract_box (flat held_ids.old held_amounts.old held_count.old held_nanos.old) nanos ids.now amounts.now count) }
{
    let subtracted = balance_parts::subtract_box(
        held_ids,
        held_amounts,
        held_count,
        held_nanos,
        nanos,
        ids,
        amounts,
        count,
    );
    code_of(subtracted)
}

// A balance: nanoErgs and up to 128 tokens, passed and returned by value; a box added to it or subtracted from it.
#![tactic(auto)]

ghost use Rattle.std.specs.Prelude.{◌≡◌};
ghost use Rattle.balance.specs.Boxes.{buffers_ok, nanos_after, change_box, add_box, subtract_box};

use index_types::{TOKEN_ID_BYTES, TOKEN_LIMIT};
use refusal::Answer;

// The id at place i is `ids[32 * i..32 * i + 32]`, its amount `amounts[i]`; the first `count` places are in use.
#[derive(Clone, Copy)]
pub struct Balance {
    pub ids: [u8; TOKEN_ID_BYTES],
    pub amounts: [i64; TOKEN_LIMIT],
    pub count: usize,
    pub nanos: i64,
}

// A refusal comes with the balance as it was. The balance stands first: so an answer is written with two copies fewer.
#[derive(Clone, Copy)]
pub struct Outcome {
    pub balance: Balance,
    pub answer: Answer,
}

// Whether a balance's count is within its places, and a box's ids and amounts are there for its n tokens.
pub fn buffers_ok(count: usize, ids: &[u8], amounts: &[i64], n: usize) -> bool
    ensures { result ≡ buffers_ok count ids.now amounts.now n }
{
    if TOKEN_LIMIT < count {
        return false;
    }
    if amounts.len() < n {
        return false;
    }
    n <= ids.len() / 32
}

// The nanoErgs after a box is added, or subtracted, where they stop at 0.
pub fn change_nanos(adding: bool, old: i64, nanos: i64) -> Option<i64>
    ensures { result ≡ nanos_after adding old nanos }
{
    if adding {
        return signed::checked_add(old, nanos);
    }
    match signed::checked_sub(old, nanos) {
        Some(rest) => { if rest < 0 { Some(0) } else { Some(rest) } }
        None => None,
    }
}

// Adds or subtracts a box: nanoErgs first, then the tokens, on copies of the arrays, so that a refusal gives back the old balance.
fn change_box(
    adding: bool,
    balance: Balance,
    nanos: i64,
    ids: &[u8],
    amounts: &[i64],
    count: usize,
) -> Outcome
    ensures { result ≡ change_box adding balance nanos ids.now amounts.now count }
{
    let held = balance.count;
    if !buffers_ok(held, ids, amounts, count) {
        return Outcome {
            balance,
            answer: Err(refusal::BUFFERS),
        };
    }
    let old = balance.nanos;
    match change_nanos(adding, old, nanos) {
        Some(sum) => {
            let mut table = balance.ids;
            let mut sums = balance.amounts;
            match token_changes::change_tokens(
                adding, &mut table, &mut sums, held, ids, amounts, count,
            ) {
                Ok(n) => Outcome {
                    balance: Balance {
                        ids: table,
                        amounts: sums,
                        count: n,
                        nanos: sum,
                    },
                    answer: Ok(()),
                },
                Err(code) => {
                    let answer = Err(code);
                    Outcome { balance, answer }
                }
            }
        }
        None => Outcome {
            balance,
            answer: Err(refusal::AMOUNT_OUT_OF_RANGE),
        },
    }
}

// Adds a box: its nanoErgs, then its tokens in list order; new ids go last.
pub fn add_box(balance: Balance, nanos: i64, ids: &[u8], amounts: &[i64], count: usize) -> Outcome
    ensures { result ≡ add_box balance nanos ids.now amounts.now count }
{
    change_box(true, balance, nanos, ids, amounts, count)
}

// Subtracts a box: its nanoErgs, which stop at 0, then its tokens in list order; a token at 0 or below is dropped, an unknown id ignored.
pub fn subtract_box(
    balance: Balance,
    nanos: i64,
    ids: &[u8],
    amounts: &[i64],
    count: usize,
) -> Outcome
    ensures { result ≡ subtract_box balance nanos ids.now amounts.now count }
{
    change_box(false, balance, nanos, ids, amounts, count)
}

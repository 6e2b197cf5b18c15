// A credit and a debit of a driver on the state of all parents: any number of tokens, which stand in borrowed bytes, the ids first and the amounts behind them.
#![tactic(auto)]

ghost use Rattle.std.specs.Prelude.{◌≡◌, ◌+◌, ◌*◌, ◌≤◌, length, take};
ghost use Rattle.index_types.specs.Limits.{token_limit, token_id_bytes};
ghost use Rattle.balance_tokens.specs.Tokens.{left_in};
ghost use Rattle.balance.specs.Boxes.{change_box};
ghost use Rattle.call_steps.specs.State.{parent_numbers, parent_ids};
ghost use Rattle.call_steps.specs.Steps.{change_step};
ghost use Rattle.driver_core.specs.Steps.{token_ids, token_amounts};
ghost use Rattle.driver_core.specs.Bytes.{tokens_at};
ghost use Rattle.driver_changes.specs.Internal.{amounts_at, change_each, change_tokens_of};

use balance::{Balance, Outcome};
use balance_tokens::Counted;
use call_steps::Said;
use index_types::TOKEN_LIMIT;

// Adds or subtracts n tokens, in list order, until one is refused: ids from i on, amounts from a on.
fn change_tokens(
    adding: bool,
    table: &mut [u8],
    sums: &mut [i64],
    count: usize,
    s: &[u8],
    i: usize,
    a: usize,
    n: usize,
) -> Counted
    requires { (length table.old ≡ token_id_bytes) × (length sums.old ≡ token_limit) × (count ≤ token_limit) × (i + n * 32 ≤ length s.now) × (a + n * 8 ≤ length s.now) }
    ensures { left_in result table.new sums.new ≡ change_each adding (tokens_at s.now i a n) (record { ids = table.old; amounts = sums.old; count = count }) }
{
    let mut held = count;
    for k in 0..n {
        let amounts = [calls::number_at(s, a + k * 8); 1];
        let id_at = i + k * 32;
        let e = id_at + 32;
        match token_changes::change_tokens(adding, table, sums, held, &s[id_at..e], &amounts, 1) {
            Ok(m) => {
                held = m;
            }
            Err(code) => return Err(code),
        }
    }
    Ok(held)
}

// Adds or subtracts a box of n tokens: nanoErgs first, then the tokens, on copies of the arrays, so that a refusal gives back the old balance.
fn change_box(
    adding: bool,
    balance: Balance,
    nanos: i64,
    s: &[u8],
    i: usize,
    a: usize,
    n: usize,
) -> Outcome
    requires { (i + n * 32 ≤ length s.now) × (a + n * 8 ≤ length s.now) }
    ensures { result ≡ change_box adding balance nanos (token_ids (tokens_at s.now i a n)) (token_amounts (tokens_at s.now i a n)) (length (tokens_at s.now i a n)) }
{
    let held = balance.count;
    if TOKEN_LIMIT < held {
        return Outcome {
            balance,
            answer: Err(refusal::BUFFERS),
        };
    }
    let old = balance.nanos;
    match balance::change_nanos(adding, old, nanos) {
        Some(sum) => {
            let mut table = balance.ids;
            let mut sums = balance.amounts;
            match change_tokens(adding, &mut table, &mut sums, held, s, i, a, n) {
                Ok(m) => Outcome {
                    balance: Balance {
                        ids: table,
                        amounts: sums,
                        count: m,
                        nanos: sum,
                    },
                    answer: Ok(()),
                },
                Err(code) => {
                    let answer = Err(code);
                    Outcome { balance, answer }
                }
            }
        }
        None => Outcome {
            balance,
            answer: Err(refusal::AMOUNT_OUT_OF_RANGE),
        },
    }
}

// A credit or a debit of a parent on a copy of its balance: nanoErgs and the n tokens that begin at t.
fn change_many(
    adding: bool,
    p: usize,
    nanos: i64,
    s: &[u8],
    t: usize,
    n: usize,
    ids: &mut [u8],
    numbers: &mut [i64],
    lengths: &mut [usize],
) -> Said
    requires { (t + n * 40 ≤ length s.now)
        × (p * parent_ids + parent_ids ≤ length ids.old) × (p * parent_numbers + parent_numbers ≤ length numbers.old) × (p * 3 + 3 ≤ length lengths.old) }
    ensures { change_step result ids.new numbers.new lengths.new
        ≡ change_tokens_of adding p nanos (tokens_at s.now t (t + n * 32) n) ids.old numbers.old lengths.old }
{
    let held = balance_steps::read_balance(p, ids, numbers, lengths);
    let o = change_box(adding, held, nanos, s, t, t + n * 32, n);
    let after = o.balance;
    let answer = o.answer;
    balance_steps::write_balance(p, after, ids, numbers, lengths);
    balance_steps::said_by(answer)
}

// Reads n amounts, which stand from a on, to the front of a list.
fn read_amounts(s: &[u8], a: usize, n: usize, amounts: &mut [i64])
    requires { (a + n * 8 ≤ length s.now) × (n ≤ length amounts.old) }
    ensures { take n amounts.new ≡ amounts_at s.now a n }
{
    for (k, amount) in amounts[..n].iter_mut().enumerate() {
        *amount = calls::number_at(s, a + k * 8);
    }
}

// The same in the balance's places, for as many tokens as a balance holds at most.
fn change_few(
    adding: bool,
    p: usize,
    nanos: i64,
    s: &[u8],
    t: usize,
    n: usize,
    ids: &mut [u8],
    numbers: &mut [i64],
    lengths: &mut [usize],
) -> Said
    requires { (t + n * 40 ≤ length s.now) × (n ≤ token_limit)
        × (p * parent_ids + parent_ids ≤ length ids.old) × (p * parent_numbers + parent_numbers ≤ length numbers.old) × (p * 3 + 3 ≤ length lengths.old) }
    ensures { change_step result ids.new numbers.new lengths.new
        ≡ change_tokens_of adding p nanos (tokens_at s.now t (t + n * 32) n) ids.old numbers.old lengths.old }
{
    let mut amounts = [0i64; TOKEN_LIMIT];
    let e = t + n * 32;
    read_amounts(s, e, n, &mut amounts);
    balance_places::change_box(
        adding,
        p,
        nanos,
        &s[t..e],
        &amounts[..n],
        n,
        ids,
        numbers,
        lengths,
    )
}

// A credit or a debit of a parent: nanoErgs and the n tokens that begin at t.
pub fn change_with(
    adding: bool,
    p: usize,
    nanos: i64,
    s: &[u8],
    t: usize,
    n: usize,
    ids: &mut [u8],
    numbers: &mut [i64],
    lengths: &mut [usize],
) -> Said
    requires { (t + n * 40 ≤ length s.now)
        × (p * parent_ids + parent_ids ≤ length ids.old) × (p * parent_numbers + parent_numbers ≤ length numbers.old) × (p * 3 + 3 ≤ length lengths.old) }
    ensures { change_step result ids.new numbers.new lengths.new
        ≡ change_tokens_of adding p nanos (tokens_at s.now t (t + n * 32) n) ids.old numbers.old lengths.old }
{
    if n <= TOKEN_LIMIT {
        change_few(adding, p, nanos, s, t, n, ids, numbers, lengths)
    } else {
        change_many(adding, p, nanos, s, t, n, ids, numbers, lengths)
    }
}

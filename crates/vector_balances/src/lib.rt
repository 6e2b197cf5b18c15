// Balances after a box, by value and in place, a line each: the refusal code or 0, then the balance: nanoErgs, the tokens' ids and amounts.
#![tactic(auto)]

ghost use Rattle.std.specs.Prelude.{◌≡◌, ◌≤◌, length};
ghost use Rattle.balance.specs.Boxes.{add_box, subtract_box};

use balance::{Balance, Outcome};
use index_types::{TOKEN_ID_BYTES, TOKEN_LIMIT};
use std::io;
use std::io::Write;

// How a balance is changed.
#[derive(Clone, Copy)]
pub enum Change {
    Add,
    Subtract,
    AddInPlace,
    SubtractInPlace,
}

// A balance, and the position behind it.
#[derive(Clone, Copy)]
pub struct Held {
    pub balance: Balance,
    pub next: usize,
}

// The balance at a position: nanoErgs, ids, amounts and the token count.
pub fn balance_at(s: &[u8], at: usize) -> Held {
    let mut ids = [0u8; TOKEN_ID_BYTES];
    let mut amounts = [0i64; TOKEN_LIMIT];
    let nanos = vector_fields::number_at(s, at);
    let i = vector_fields::bytes_at(s, nanos.next, &mut ids);
    let a = vector_fields::numbers_at(s, i.next, &mut amounts);
    let count = vector_fields::size_at(s, a.next);
    Held {
        balance: Balance {
            ids,
            amounts,
            count: count.n,
            nanos: nanos.n,
        },
        next: count.next,
    }
}

// Adds a box in place to a copy of a balance.
fn add_in_place(old: Balance, nanos: i64, ids: &[u8], amounts: &[i64], count: usize) -> Outcome
    ensures { result ≡ add_box old nanos ids.now amounts.now count }
{
    let mut held = old;
    let answer = balance_in_place::add_box(&mut held, nanos, ids, amounts, count);
    Outcome {
        answer,
        balance: held,
    }
}

// Subtracts a box in place from a copy of a balance.
fn subtract_in_place(old: Balance, nanos: i64, ids: &[u8], amounts: &[i64], count: usize) -> Outcome
    ensures { result ≡ subtract_box old nanos ids.now amounts.now count }
{
    let mut held = old;
    let answer = balance_in_place::subtract_box(&mut held, nanos, ids, amounts, count);
    Outcome {
        answer,
        balance: held,
    }
}

fn show<W: Write>(to: &mut W, name: &[u8], outcome: Outcome) -> io::Result<()> {
    let answer = outcome.answer;
    let after = outcome.balance;
    let ids = after.ids;
    let amounts = after.amounts;
    let count = after.count;
    vector_line::start(to, name)?;
    vector_line::code(to, vector_line::code_of(answer))?;
    vector_line::signed_number(to, after.nanos)?;
    vector_fields::bytes(to, &ids, 32, count)?;
    vector_fields::numbers(to, &amounts, count)?;
    vector_line::end(to)
}

fn changed(
    change: Change,
    old: Balance,
    nanos: i64,
    ids: &[u8],
    amounts: &[i64],
    count: usize,
) -> Outcome {
    match change {
        Change::Add => balance::add_box(old, nanos, ids, amounts, count),
        Change::Subtract => balance::subtract_box(old, nanos, ids, amounts, count),
        Change::AddInPlace => add_in_place(old, nanos, ids, amounts, count),
        Change::SubtractInPlace => subtract_in_place(old, nanos, ids, amounts, count),
    }
}

// A balance, and a box: its nanoErgs, ids, amounts and how many tokens.
pub fn replay<W: Write>(to: &mut W, name: &[u8], change: Change, s: &[u8]) -> io::Result<()> {
    let held = balance_at(s, 0);
    let old = held.balance;
    let mut ids = [0u8; 4128];
    let mut amounts = [0i64; 129];
    let nanos = vector_fields::number_at(s, held.next);
    let i = vector_fields::bytes_at(s, nanos.next, &mut ids);
    let a = vector_fields::numbers_at(s, i.next, &mut amounts);
    let count = vector_fields::size_at(s, a.next);
    let i_len = i.len;
    let a_len = a.len;
    let outcome = changed(
        change,
        old,
        nanos.n,
        &ids[0..i_len],
        &amounts[0..a_len],
        count.n,
    );
    show(to, name, outcome)
}

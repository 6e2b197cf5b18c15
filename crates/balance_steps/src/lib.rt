// A credit and a debit of the runner on the state of all parents.
#![tactic(auto)]

ghost use Rattle.std.specs.Prelude.{◌≡◌, ◌+◌, ◌*◌, ◌≤◌, length};
ghost use Rattle.call_steps.specs.State.{balance_of, ids_with, numbers_with, lengths_with, parent_numbers, parent_ids};
ghost use Rattle.call_steps.specs.Steps.{said_by, change_step, change_of};

use balance::Balance;
use call_steps::{AMOUNTS_AT, NANOS_AT, PARENT_IDS, PARENT_NUMBERS, Said};
use index_types::{TOKEN_ID_BYTES, TOKEN_LIMIT};
use refusal::Answer;

// The balance of a parent, from its places.
pub fn read_balance(p: usize, ids: &[u8], numbers: &[i64], lengths: &[usize]) -> Balance
    requires { (p * parent_ids + parent_ids ≤ length ids.now) × (p * parent_numbers + parent_numbers ≤ length numbers.now) × (p * 3 + 3 ≤ length lengths.now) }
    ensures { result ≡ balance_of p ids.now numbers.now lengths.now }
{
    let mut token_ids = [0u8; TOKEN_ID_BYTES];
    let mut amounts = [0i64; TOKEN_LIMIT];
    let i = p * PARENT_IDS + 32;
    let j = i + TOKEN_ID_BYTES;
    stores::copy_bytes(&mut token_ids, 0, &ids[i..j]);
    let a = p * PARENT_NUMBERS + AMOUNTS_AT;
    let e = a + TOKEN_LIMIT;
    stores::copy_numbers(&mut amounts, 0, &numbers[a..e]);
    let count = lengths[p * 3 + 2];
    let nanos = numbers[p * PARENT_NUMBERS + NANOS_AT];
    Balance {
        ids: token_ids,
        amounts,
        count,
        nanos,
    }
}

// The balance takes its places.
pub fn write_balance(
    p: usize,
    balance: Balance,
    ids: &mut [u8],
    numbers: &mut [i64],
    lengths: &mut [usize],
)
    requires { (p * parent_ids + parent_ids ≤ length ids.old) × (p * parent_numbers + parent_numbers ≤ length numbers.old) × (p * 3 + 3 ≤ length lengths.old) }
    ensures { (ids.new ≡ ids_with p balance ids.old) × (numbers.new ≡ numbers_with p balance numbers.old)
        × (lengths.new ≡ lengths_with p balance lengths.old) }
{
    let token_ids = balance.ids;
    let amounts = balance.amounts;
    let count = balance.count;
    let nanos = balance.nanos;
    stores::copy_bytes(ids, p * PARENT_IDS + 32, &token_ids);
    stores::copy_numbers(numbers, p * PARENT_NUMBERS + AMOUNTS_AT, &amounts);
    let at = p * PARENT_NUMBERS + NANOS_AT;
    numbers[at] = nanos;
    let last = p * 3 + 2;
    lengths[last] = count;
}

// What a change of a balance says.
pub fn said_by(answer: Answer) -> Said
    ensures { result ≡ said_by answer }
{
    match answer {
        Ok(()) => call_steps::says(0),
        Err(code) => call_steps::says(code),
    }
}

// A credit or a debit of a box with one token, whose id is a byte 32 times.
pub fn change_step(
    adding: bool,
    p: usize,
    nanos: i64,
    token: u8,
    amount: i64,
    ids: &mut [u8],
    numbers: &mut [i64],
    lengths: &mut [usize],
) -> Said
    requires { (p * parent_ids + parent_ids ≤ length ids.old) × (p * parent_numbers + parent_numbers ≤ length numbers.old) × (p * 3 + 3 ≤ length lengths.old) }
    ensures { change_step result ids.new numbers.new lengths.new
        ≡ change_of adding p nanos token amount ids.old numbers.old lengths.old }
{
    let id = [token; 32];
    let amounts = [amount; 1];
    balance_places::change_box(adding, p, nanos, &id, &amounts, 1, ids, numbers, lengths)
}

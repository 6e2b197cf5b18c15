// The tokens of a balance changed: a token added, subtracted or dropped, and those of a box in list order.
#![tactic(auto)]

ghost use Rattle.std.specs.Prelude.{◌≡◌, ◌+◌, ◌*◌, ◌<◌, ◌≤◌, length, pos};
ghost use Rattle.index_types.specs.Limits.{token_limit, token_id_bytes};
ghost use Rattle.balance_tokens.specs.Tokens.{id_at, place_of, closed_up, add_token, subtract_token, change_token, change_tokens, left_in};

use balance_tokens::Counted;
use index_types::TOKEN_LIMIT;

// The amount at a place of the first count leaves: later ones move up, a zero follows.
fn close_amounts(sums: &mut [i64], at: usize, count: usize)
    requires { (at < count) × (count ≤ length sums.old) }
    ensures { sums.new ≡ closed_up 1 (pos 0) at count sums.old }
{
    let last = count - 1;
    stores::move_numbers(sums, at + 1, at, last - at);
    stores::clear_numbers(sums, last, 1);
}

// Adds a token: its amount to `at`, the place that holds its id, or a new last place.
fn add_token(
    table: &mut [u8],
    sums: &mut [i64],
    count: usize,
    ids: &[u8],
    j: usize,
    amount: i64,
    at: usize,
) -> Counted
    requires { (length table.old ≡ token_id_bytes) × (length sums.old ≡ token_limit) × (count ≤ token_limit) × (j * 32 + 32 ≤ length ids.now) × (at ≡ place_of (id_at ids.now j) table.old count) }
    ensures { left_in result table.new sums.new ≡ add_token (record { ids = table.old; amounts = sums.old; count = count }) (id_at ids.now j) amount }
{
    if at < count {
        let old = sums[at];
        match signed::checked_add(old, amount) {
            Some(sum) => {
                sums[at] = sum;
                return Ok(count);
            }
            None => return Err(refusal::AMOUNT_OUT_OF_RANGE),
        }
    }
    if count < TOKEN_LIMIT {
        token_ids::put_id(table, count, ids, j);
        sums[count] = amount;
        return Ok(count + 1);
    }
    Err(refusal::TOO_MANY_TOKENS)
}

// Subtracts a token at `at`, the place that holds its id, which is dropped at 0 or below; an unknown id is ignored.
fn subtract_token(
    table: &mut [u8],
    sums: &mut [i64],
    count: usize,
    ids: &[u8],
    j: usize,
    amount: i64,
    at: usize,
) -> Counted
    requires { (length table.old ≡ token_id_bytes) × (length sums.old ≡ token_limit) × (count ≤ token_limit) × (j * 32 + 32 ≤ length ids.now) × (at ≡ place_of (id_at ids.now j) table.old count) }
    ensures { left_in result table.new sums.new ≡ subtract_token (record { ids = table.old; amounts = sums.old; count = count }) (id_at ids.now j) amount }
{
    if at < count {
        let old = sums[at];
        match signed::checked_sub(old, amount) {
            Some(rest) => {
                if rest <= 0 {
                    token_ids::close_ids(table, at, count);
                    close_amounts(sums, at, count);
                    return Ok(count - 1);
                }
                sums[at] = rest;
                return Ok(count);
            }
            None => return Err(refusal::AMOUNT_OUT_OF_RANGE),
        }
    }
    Ok(count)
}

// Finds a token's place, and adds or subtracts it there.
fn change_token(
    adding: bool,
    table: &mut [u8],
    sums: &mut [i64],
    count: usize,
    ids: &[u8],
    j: usize,
    amount: i64,
) -> Counted
    requires { (length table.old ≡ token_id_bytes) × (length sums.old ≡ token_limit) × (count ≤ token_limit) × (j * 32 + 32 ≤ length ids.now) }
    ensures { left_in result table.new sums.new ≡ change_token adding (record { ids = table.old; amounts = sums.old; count = count }) (id_at ids.now j) amount }
{
    let at = token_ids::find(table, count, ids, j);
    if adding {
        add_token(table, sums, count, ids, j, amount, at)
    } else {
        subtract_token(table, sums, count, ids, j, amount, at)
    }
}

// Adds or subtracts the n tokens of a box, in list order, until one is refused.
pub fn change_tokens(
    adding: bool,
    table: &mut [u8],
    sums: &mut [i64],
    count: usize,
    ids: &[u8],
    amounts: &[i64],
    n: usize,
) -> Counted
    requires { (length table.old ≡ token_id_bytes) × (length sums.old ≡ token_limit) × (count ≤ token_limit) × (n * 32 ≤ length ids.now) × (n ≤ length amounts.now) }
    ensures { left_in result table.new sums.new ≡ change_tokens adding ids.now amounts.now 0 n (record { ids = table.old; amounts = sums.old; count = count }) }
{
    let mut held = count;
    for j in 0..n {
        match change_token(adding, table, sums, held, ids, j, amounts[j]) {
            Ok(m) => {
                held = m;
            }
            Err(code) => return Err(code),
        }
    }
    Ok(held)
}

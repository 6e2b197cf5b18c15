// The tokens of a box added to or subtracted from those of a balance in borrowed arrays, which a refusal leaves as they were.
#![tactic(auto)]

ghost use Rattle.std.specs.Prelude.{◌≡◌, true, List, ℕ, ◌*◌, ◌≤◌, length};
ghost use Rattle.index_types.specs.Limits.{token_limit, token_id_bytes};
ghost use Rattle.balance_tokens.specs.Tokens.{change_tokens};
ghost use Rattle.balance.specs.Parts.{Small, Passed, Kept};

use balance_tokens::Counted;
use index_types::{TOKEN_ID_BYTES, TOKEN_LIMIT};

// Whether the absolute values of the first n numbers are below a bound. All are looked at: there is no branch inside.
fn all_small(numbers: &[i64], n: usize, bound: u64) -> bool
    requires { n ≤ length numbers.now }
    ensures { result ≡ true → Small bound numbers.now n }
{
    let mut small = true;
    for &x in &numbers[..n] {
        small &= signed::magnitude(x) < bound;
    }
    small
}

// A test that rules out every refusal of a box's n tokens: there is room for n new ones, and with n ≤ 128 no sum of an amount held, below 2^62, and n amounts
// below 2^55 leaves 64 signed bits. Where it is false a token may be refused or not.
fn none_refused(adding: bool, sums: &[i64], count: usize, amounts: &[i64], n: usize) -> bool
    requires { (length sums.now ≡ token_limit) × (count ≤ token_limit) × (n ≤ length amounts.now) }
    ensures { result ≡ true → (table ids : List ℕ) → Passed (change_tokens adding ids amounts.now 0 n (record { ids = table; amounts = sums.now; count = count })) }
{
    let room = if adding {
        TOKEN_LIMIT - count
    } else {
        TOKEN_LIMIT
    };
    if room < n {
        return false;
    }
    if !all_small(amounts, n, 36028797018963968) {
        return false;
    }
    all_small(sums, count, 4611686018427387904)
}

// Adds or subtracts the n tokens of a box on copies of the arrays, which are copied back unless a token is refused.
fn change_copies(
    adding: bool,
    table: &mut [u8],
    sums: &mut [i64],
    count: usize,
    ids: &[u8],
    amounts: &[i64],
    n: usize,
) -> Counted
    requires { (length table.old ≡ token_id_bytes) × (length sums.old ≡ token_limit) × (count ≤ token_limit) × (n * 32 ≤ length ids.now) × (n ≤ length amounts.now) }
    ensures { Kept result table.old sums.old table.new sums.new
        (change_tokens adding ids.now amounts.now 0 n (record { ids = table.old; amounts = sums.old; count = count })) }
{
    let mut new_table = [0u8; TOKEN_ID_BYTES];
    let mut new_sums = [0i64; TOKEN_LIMIT];
    stores::copy_bytes(&mut new_table, 0, table);
    stores::copy_numbers(&mut new_sums, 0, sums);
    match token_changes::change_tokens(
        adding,
        &mut new_table,
        &mut new_sums,
        count,
        ids,
        amounts,
        n,
    ) {
        Ok(m) => {
            stores::copy_bytes(table, 0, &new_table);
            stores::copy_numbers(sums, 0, &new_sums);
            Ok(m)
        }
        Err(code) => Err(code),
    }
}

// The same, in the arrays themselves where no token can be refused.
pub fn change_kept(
    adding: bool,
    table: &mut [u8],
    sums: &mut [i64],
    count: usize,
    ids: &[u8],
    amounts: &[i64],
    n: usize,
) -> Counted
    requires { (length table.old ≡ token_id_bytes) × (length sums.old ≡ token_limit) × (count ≤ token_limit) × (n * 32 ≤ length ids.now) × (n ≤ length amounts.now) }
    ensures { Kept result table.old sums.old table.new sums.new
        (change_tokens adding ids.now amounts.now 0 n (record { ids = table.old; amounts = sums.old; count = count })) }
{
    if none_refused(adding, sums, count, amounts, n) {
        token_changes::change_tokens(adding, table, sums, count, ids, amounts, n)
    } else {
        change_copies(adding, table, sums, count, ids, amounts, n)
    }
}

// The tokens of two balances compared by ascending id. No sorted copy is made: the least id above the last one is looked for.
#![tactic(auto)]

ghost use Rattle.std.specs.Prelude.{◌≡◌, ◌+◌, ◌*◌, ◌<◌, ◌≤◌, pos, length, get_or};
ghost use Rattle.balance_tokens.specs.Tokens.{id_at};
ghost use Rattle.balance_laws.specs.Calls.{tokens_from};
ghost use Rattle.address_order.specs.Order.{of_numbers, of_signed, of_ids, of_tokens, of_lists, ascending};
ghost use Rattle.token_order.specs.Internal.{is_less, better_place, Next, TokensReady};

use index_types::Order;

// How two bytes compare as unsigned numbers.
fn compare_bytes(p: u8, q: u8) -> Order
    ensures { result ≡ of_numbers p q }
{
    if p < q {
        return Order::Less;
    }
    if q < p {
        return Order::Greater;
    }
    Order::Equal
}

// How two numbers compare with their signs.
pub fn compare_signed(x: i64, y: i64) -> Order
    ensures { result ≡ of_signed x y }
{
    if x < y {
        return Order::Less;
    }
    if y < x {
        return Order::Greater;
    }
    Order::Equal
}

// How the id at place i of a compares with the one at place j of b, byte by byte.
#[tactic(auto, using(crate::proofs::IdOrder::id_turn, crate::proofs::IdOrder::id_end))]
pub fn compare_ids(a: &[u8], i: usize, b: &[u8], j: usize) -> Order
    requires { (i * 32 + 32 ≤ length a.now) × (j * 32 + 32 ≤ length b.now) }
    ensures { result ≡ of_ids (id_at a.now i) (id_at b.now j) }
{
    let p = i * 32;
    let q = j * 32;
    for k in 0..32 {
        match compare_bytes(a[p + k], b[q + k]) {
            Order::Less => return Order::Less,
            Order::Greater => return Order::Greater,
            Order::Equal => {}
        }
    }
    Order::Equal
}

// Whether the id at place i is below the one at place j.
fn is_below(ids: &[u8], i: usize, j: usize) -> bool
    requires { (i * 32 + 32 ≤ length ids.now) × (j * 32 + 32 ≤ length ids.now) }
    ensures { result ≡ is_less (of_ids (id_at ids.now i) (id_at ids.now j)) }
{
    let order = compare_ids(ids, i, ids, j);
    match order {
        Order::Less => true,
        Order::Equal => false,
        Order::Greater => false,
    }
}

// Place i where its id is above the one at place `last`, if one was taken, and below the one at the best place so far, which is `count` where there is none;
// else the best place so far.
fn better_place(
    ids: &[u8],
    count: usize,
    started: bool,
    last: usize,
    best: usize,
    i: usize,
) -> usize
    requires { (count * 32 ≤ length ids.now) × (last * 32 + 32 ≤ length ids.now) × (best ≤ count) × (i < count) }
    ensures { result ≡ better_place ids.now count started last best i }
{
    let above = is_below(ids, last, i);
    if started & !above {
        return best;
    }
    if count <= best {
        return i;
    }
    let lower = is_below(ids, i, best);
    if lower {
        return i;
    }
    best
}

// The place of the least id above the one at place `last`, or of the least of all where none was taken; `count` where there is none.
#[tactic(auto, using(crate::proofs::NextLaws::next_turn, crate::proofs::NextLaws::next_none))]
fn next_place(ids: &[u8], count: usize, started: bool, last: usize) -> usize
    requires { (count * 32 ≤ length ids.now) × (last * 32 + 32 ≤ length ids.now) }
    ensures { Next ids.now count started last count result }
{
    let mut best = count;
    for i in 0..count {
        best = better_place(ids, count, started, last, best, i);
    }
    best
}

// How the token at place i of one balance compares with the one at place j of another: the ids, then the amounts.
fn compare_token<'a>(
    ids: &'a [u8],
    amounts: &'a [i64],
    i: usize,
    other_ids: &'a [u8],
    other_amounts: &'a [i64],
    j: usize,
) -> Order
    requires { (i * 32 + 32 ≤ length ids.now) × (i < length amounts.now) × (j * 32 + 32 ≤ length other_ids.now) × (j < length other_amounts.now) }
    ensures { result ≡ of_tokens (id_at ids.now i, get_or amounts.now i (pos 0)) (id_at other_ids.now j, get_or other_amounts.now j (pos 0)) }
{
    let by_id = compare_ids(ids, i, other_ids, j);
    let x = amounts[i];
    let y = other_amounts[j];
    let by_amount = compare_signed(x, y);
    match by_id {
        Order::Less => Order::Less,
        Order::Greater => Order::Greater,
        Order::Equal => by_amount,
    }
}

// How the tokens of two balances compare, taken by ascending id: the first that differs decides, and a list that ends earlier is first.
pub fn compare_tokens<'a>(
    ids: &'a [u8],
    amounts: &'a [i64],
    count: usize,
    other_ids: &'a [u8],
    other_amounts: &'a [i64],
    other_count: usize,
) -> Order
    requires { TokensReady ids.now amounts.now count × TokensReady other_ids.now other_amounts.now other_count }
    ensures { result ≡ of_lists of_tokens (ascending (tokens_from ids.now amounts.now 0 count))
        (ascending (tokens_from other_ids.now other_amounts.now 0 other_count)) }
{
    let mut started = false;
    let mut i = 0;
    let mut j = 0;
    loop {
        i = next_place(ids, count, started, i);
        j = next_place(other_ids, other_count, started, j);
        if count <= i {
            if other_count <= j {
                return Order::Equal;
            }
            // The first list ends earlier.
            let ends_earlier = Order::Less;
            return ends_earlier;
        }
        if other_count <= j {
            return Order::Greater;
        }
        let order = compare_token(ids, amounts, i, other_ids, other_amounts, j);
        match order {
            Order::Less => {
                return Order::Less;
            }
            Order::Greater => {
                return Order::Greater;
            }
            Order::Equal => {
                started = true;
            }
        }
    }
}

// Whether a key stands twice in a list, and with that what refusal 25 asks of a record list and of a key list.
#![tactic(auto)]

ghost use Rattle.std.specs.Prelude.{◌≡◌, ◌+◌, ◌-◌, ◌*◌, ◌%◌, ◌^◌, ◌<◌, ◌≤◌, true, false, length, take, drop};
ghost use Rattle.stores.specs.Equal.{same_bytes};
ghost use Rattle.records.specs.Records.{keys};
ghost use Rattle.records.specs.Find.{find_key, is_found, distinct};
ghost use Rattle.records.specs.Checks.{records_ok, keys_ok};
ghost use Rattle.distinct_keys.specs.Internal.{half_at, word_at, root_of, turns_of, AllFree, Grown, Spotted, NoneAgain};

use index_types::ListCounts;

// Whether the key of the record at a position stands in one of the `left` records behind it.
fn stands_later(list: &[u8], at: usize, size: usize, left: usize) -> bool
    requires { (32 ≤ size) × (at + size + left * size ≤ length list.now) }
    ensures { result ≡ is_found (find_key (take 32 (drop at list.now)) (keys size left (drop (at + size) list.now))) }
{
    let next = at + size;
    let end = at + 32;
    let found = records::find(&list[next..], size, left, &list[at..end]);
    match found {
        Some(_) => true,
        None => false,
    }
}

// Whether no key stands twice, by comparing each key with all those behind it. A few keys are compared so: a bucket table costs more to clear.
#[tactic(auto, using(records::proofs::TurnLaws::distinct_step, records::proofs::TurnLaws::distinct_past, records::proofs::TurnLaws::below_mul, records::proofs::TurnLaws::left_mul))]
fn keys_differ_pairwise(list: &[u8], size: usize, count: usize) -> bool
    requires { (32 ≤ size) × (count * size ≤ length list.now) }
    ensures { result ≡ distinct (keys size count list.now) }
{
    for i in 0..count {
        if stands_later(list, i * size, size, count - (i + 1)) {
            return false;
        }
    }
    true
}

// Whether the keys at two positions are equal.
fn same_keys(list: &[u8], at: usize, other: usize) -> bool
    requires { (at + 32 ≤ length list.now) × (other + 32 ≤ length list.now) }
    ensures { result ≡ same_bytes (take 32 (drop at list.now)) (take 32 (drop other list.now)) }
{
    let end = other + 32;
    records::key_is(list, at, &list[other..end])
}

// ---- no key twice: each key is put into a tree, and meets an equal one on its way

fn wide(x: u8) -> u64
    ensures value { result ≡ x }
    ensures upper_bound { result < 256 }
{
    x as u64
}

// Four bytes as a number, the lowest first.
fn half(list: &[u8], at: usize) -> u64
    requires { at + 4 ≤ length list.now }
    ensures value { result ≡ half_at list.now at }
    ensures fits { result < 2 ^ 32 }
{
    wide(list[at])
        + wide(list[at + 1]) * 0x100
        + wide(list[at + 2]) * 0x1_0000
        + wide(list[at + 3]) * 0x100_0000
}

// Eight bytes as a number, the lowest first.
fn word(list: &[u8], at: usize) -> u64
    requires { at + 8 ≤ length list.now }
    ensures { result ≡ word_at list.now at }
{
    half(list, at) + half(list, at + 4) * 0x1_0000_0000
}

// The root at which the way of a key begins: its first eight bytes, modulo the number of roots.
fn root(list: &[u8], at: usize, roots: usize) -> usize
    requires { (at + 32 ≤ length list.now) × (0 < roots) }
    ensures { (result ≡ root_of roots (take 32 (drop at list.now))) × (result < roots) }
{
    (word(list, at) % (roots as u64)) as usize
}

// Four words, added modulo 2 to the 64.
fn sum4(a: u64, b: u64, c: u64, d: u64) -> u64
    ensures { result ≡ ((a + b) % 2 ^ 64 + (c + d) % 2 ^ 64) % 2 ^ 64 }
{
    let low = std::num::wrapping_add_u64(a, b);
    let high = std::num::wrapping_add_u64(c, d);
    std::num::wrapping_add_u64(low, high)
}

// The turns that a key takes from its root on, a bit each. All its bytes count: the modulus is a prime near 2 to the 45 over the golden ratio.
fn turns(list: &[u8], at: usize) -> u64
    requires { at + 32 ≤ length list.now }
    ensures { result ≡ turns_of (take 32 (drop at list.now)) }
{
    let a = word(list, at);
    let b = word(list, at + 8);
    let c = word(list, at + 16);
    let d = word(list, at + 24);
    sum4(a, b, c, d) % 21745137823727
}

// find_spot, from the root of the key on.
fn find_below(
    list: &[u8],
    size: usize,
    at: usize,
    i: usize,
    links: &[u16],
    roots: usize,
    start: usize,
) -> Option<usize>
    requires { (32 ≤ size) × (at + 32 ≤ length list.now) × (i * size ≤ length list.now) × (roots + 2 * i ≤ length links.now)
        × Grown size list.now roots i links.now × (start ≡ root_of roots (take 32 (drop at list.now))) × (start < roots) }
    ensures { Spotted size list.now roots i links.now (take 32 (drop at list.now)) result }
{
    let mut slot = start;
    let mut rest = turns(list, at);
    let mut cur = links[slot] as usize;
    while 0 < cur {
        let k = cur - 1;
        if same_keys(list, k * size, at) {
            return None;
        }
        slot = roots + 2 * k + (rest % 2) as usize;
        rest = rest / 2;
        cur = links[slot] as usize;
    }
    Some(slot)
}

// Where the key at a position goes in the trees of the first i keys, or that it is one of them.
fn find_spot(
    list: &[u8],
    size: usize,
    at: usize,
    i: usize,
    links: &[u16],
    roots: usize,
) -> Option<usize>
    requires { (32 ≤ size) × (at + 32 ≤ length list.now) × (i * size ≤ length list.now) × (roots + 2 * i ≤ length links.now)
        × Grown size list.now roots i links.now × (0 < roots) }
    ensures { Spotted size list.now roots i links.now (take 32 (drop at list.now)) result }
{
    let start = root(list, at, roots);
    if links[start] == 0 {
        return Some(start);
    }
    find_below(list, size, at, i, links, roots, start)
}

// Puts the keys of count records into the trees, up to the first that is there. Whether no key stands twice among them.
fn grow(list: &[u8], size: usize, count: usize, links: &mut [u16], roots: usize) -> bool
    requires { (32 ≤ size) × (count * size ≤ length list.now) × (count ≤ 65535) × (0 < roots) × (roots + 2 * count ≤ length links.old)
        × AllFree links.old }
    ensures { (result ≡ distinct (keys size count list.now)) × (result ≡ true → Grown size list.now roots count links.new) }
{
    for i in 0..count {
        let Some(slot) = find_spot(list, size, i * size, i, links, roots) else {
            return false;
        };
        links[slot] = (i + 1) as u16;
    }
    true
}

// Whether none of the first `block` keys, which stand in the trees, stands again behind them.
fn none_again(
    list: &[u8],
    size: usize,
    count: usize,
    block: usize,
    links: &[u16],
    roots: usize,
) -> bool
    requires { (32 ≤ size) × (count * size ≤ length list.now) × (block ≤ count) × (0 < roots) × (roots + 2 * block ≤ length links.now)
        × Grown size list.now roots block links.now }
    ensures { (result ≡ true → NoneAgain size list.now block count) × (result ≡ false → distinct (keys size count list.now) ≡ false) }
{
    for i in block..count {
        if let None = find_spot(list, size, i * size, block, links, roots) {
            return false;
        }
    }
    true
}

// keys_differ for few records.
fn keys_differ_few(list: &[u8], size: usize, count: usize) -> bool
    requires { (32 ≤ size) × (count * size ≤ length list.now) × (count ≤ 128) }
    ensures { result ≡ distinct (keys size count list.now) }
{
    let mut links = [0u16; 511];
    grow(list, size, count, &mut links, 255)
}

// keys_differ for some more.
fn keys_differ_some(list: &[u8], size: usize, count: usize) -> bool
    requires { (32 ≤ size) × (count * size ≤ length list.now) × (count ≤ 2048) }
    ensures { result ≡ distinct (keys size count list.now) }
{
    let mut links = [0u16; 8189];
    grow(list, size, count, &mut links, 4093)
}

// keys_differ for up to 2,048 records. It is called at two places, as `block_differs` is, so that the compiler keeps its trees out of its callers.
fn keys_differ_short(list: &[u8], size: usize, count: usize) -> bool
    requires { (32 ≤ size) × (count * size ≤ length list.now) × (count ≤ 2048) }
    ensures { result ≡ distinct (keys size count list.now) }
{
    if count <= 128 {
        return keys_differ_few(list, size, count);
    }
    keys_differ_some(list, size, count)
}

// Whether none of the first `block` keys stands twice, neither among them nor behind them.
fn block_differs(list: &[u8], size: usize, count: usize, block: usize) -> bool
    requires { (32 ≤ size) × (count * size ≤ length list.now) × (block ≤ count) × (block ≤ 8192) }
    ensures { (result ≡ true → distinct (keys size count list.now) ≡ distinct (keys size (count - block) (drop (block * size) list.now)))
        × (result ≡ false → distinct (keys size count list.now) ≡ false) }
{
    let mut links = [0u16; 40955];
    if grow(list, size, block, &mut links, 24571) {
        return none_again(list, size, count, block, &links, 24571);
    }
    false
}

// keys_differ for any number of records: a block of 8,192 keys after the other, then the rest.
fn keys_differ_many(list: &[u8], size: usize, count: usize) -> bool
    requires { (32 ≤ size) × (count * size ≤ length list.now) }
    ensures { result ≡ distinct (keys size count list.now) }
{
    let mut left = count;
    let mut at = 0;
    while 8192 < left {
        if !block_differs(&list[at..], size, left, 8192) {
            return false;
        }
        left -= 8192;
        at += 8192 * size;
    }
    if left <= 2048 {
        return keys_differ_short(&list[at..], size, left);
    }
    block_differs(&list[at..], size, left, left)
}

// Whether no key stands twice among more than a few. Up to 8,192 records the time is about linear in the count; above, each block takes a pass over the records behind it.
// The tables have as many slots as are cleared in little time against the keys that are read.
fn keys_differ(list: &[u8], size: usize, count: usize) -> bool
    requires { (32 ≤ size) × (count * size ≤ length list.now) }
    ensures { result ≡ distinct (keys size count list.now) }
{
    if count <= 2048 {
        return keys_differ_short(list, size, count);
    }
    keys_differ_many(list, size, count)
}

// Whether a record list passes refusal 25: bounds, stored lengths, and no key twice.
pub fn records_ok(list: &[u8], size: usize, limit: usize, counts: ListCounts) -> bool
    requires { 34 ≤ size }
    ensures { result ≡ records_ok size limit counts list.now }
{
    if records::bounds_hold(size, counts, list) {
        if records::lengths_fit(list, size, limit, counts.count) {
            if counts.count <= 8 {
                return keys_differ_pairwise(list, size, counts.count);
            }
            return keys_differ(list, size, counts.count);
        }
    }
    false
}

// Whether a key list passes refusal 25: bounds, and no key twice.
pub fn keys_ok(list: &[u8], counts: ListCounts) -> bool
    ensures { result ≡ keys_ok counts list.now }
{
    if records::bounds_hold(32, counts, list) {
        if counts.count <= 8 {
            return keys_differ_pairwise(list, 32, counts.count);
        }
        return keys_differ(list, 32, counts.count);
    }
    false
}

// Record lists and key lists in borrowed bytes: their types, the search for a key, the row of a record, and the bounds that refusal 25 asks for.
// A record has its key in bytes 0 to 31, the length of its row in bytes 32 and 33, and its row from byte 34 on.
#![tactic(auto)]

ghost use Rattle.std.specs.Prelude.{◌≡◌, ◌+◌, ◌*◌, ◌≤◌, ◌<◌, length, get_or, take, drop};
ghost use Rattle.stores.specs.Equal.{same_bytes};
ghost use Rattle.records.specs.Records.{records, keys, stored_row};
ghost use Rattle.records.specs.Find.{find_key, locate_key};
ghost use Rattle.records.specs.Checks.{in_bounds, lengths_ok};

use index_types::ListCounts;

// Where the row under a key stands.
#[derive(Clone, Copy)]
pub enum Place {
    Staged(usize),
    Table(usize),
    Missing,
}

// Whether the 32 bytes at a position are the key.
pub fn key_is(list: &[u8], at: usize, key: &[u8]) -> bool
    requires { at + 32 ≤ length list.now }
    ensures { result ≡ same_bytes (take 32 (drop at list.now)) key.now }
{
    let end = at + 32;
    stores::same_bytes(&list[at..end], key)
}

// The index of the first record with the key.
#[tactic(auto, using(crate::proofs::TurnLaws::find_step, crate::proofs::TurnLaws::find_past, crate::proofs::TurnLaws::below_mul))]
pub fn find(list: &[u8], size: usize, count: usize, key: &[u8]) -> Option<usize>
    requires { (32 ≤ size) × (count * size ≤ length list.now) }
    ensures { result ≡ find_key key.now (keys size count list.now) }
{
    for i in 0..count {
        if key_is(list, i * size, key) {
            return Some(i);
        }
    }
    None
}

// The length that the record at a position states.
fn length_at(list: &[u8], at: usize) -> usize
    requires { at + 34 ≤ length list.now }
    ensures { (result ≡ get_or list.now (at + 32) 0 * 256 + get_or list.now (at + 33) 0) × (result < 65536) }
{
    let high = at + 32;
    let low = at + 33;
    (list[high] as usize) * 256 + (list[low] as usize)
}

// The row of the record at a position.
pub fn row_part(list: &[u8], at: usize, size: usize) -> &[u8]
    requires { (34 ≤ size) × (at + size ≤ length list.now) }
    ensures { result.now ≡ stored_row (take size (drop at list.now)) }
{
    let start = at + 34;
    let n = length_at(list, at);
    if n <= size - 34 {
        &list[start..start + n]
    } else {
        &list[start..at + size]
    }
}

// Where the row under a key stands: a staged spill, else a record of the table.
pub fn locate(
    staged: &[u8],
    staged_count: usize,
    table: &[u8],
    table_count: usize,
    size: usize,
    key: &[u8],
) -> Place
    requires { (32 ≤ size) × (staged_count * size ≤ length staged.now) × (table_count * size ≤ length table.now) }
    ensures { result ≡ locate_key size key.now staged_count staged.now table_count table.now }
{
    let among_staged = find(staged, size, staged_count, key);
    match among_staged {
        Some(i) => Place::Staged(i),
        None => {
            let in_table = find(table, size, table_count, key);
            match in_table {
                Some(i) => Place::Table(i),
                None => Place::Missing,
            }
        }
    }
}

// Whether the count is at most the capacity, and the capacity's records lie within the list.
pub fn bounds_hold(size: usize, counts: ListCounts, list: &[u8]) -> bool
    requires { 0 < size }
    ensures { result ≡ in_bounds size counts list.now }
{
    if counts.count <= counts.capacity {
        return counts.capacity <= list.len() / size;
    }
    false
}

// Whether every record states a length of at most the limit.
#[tactic(auto, using(crate::proofs::TurnLaws::lengths_step, crate::proofs::TurnLaws::lengths_past, crate::proofs::TurnLaws::below_mul))]
pub fn lengths_fit(list: &[u8], size: usize, limit: usize, count: usize) -> bool
    requires { (34 ≤ size) × (count * size ≤ length list.now) }
    ensures { result ≡ lengths_ok limit (records size count list.now) }
{
    for i in 0..count {
        if limit < length_at(list, i * size) {
            return false;
        }
    }
    true
}

// Changes of record lists and key lists in borrowed bytes: put, remove, empty, and whether there is room for a record.
#![tactic(auto)]

ghost use Rattle.std.specs.Prelude.{◌≡◌, ◌+◌, ◌*◌, ◌≤◌, ◌<◌, length};
ghost use Rattle.records.specs.Records.{keys, record_of};
ghost use Rattle.records.specs.Find.{find_key};
ghost use Rattle.records.specs.Changes.{slot, count_after, put_record, remove_record, clear_records, full_for};

use index_types::ListCounts;

// The index that a record goes to.
fn slot_of(found: Option<usize>, count: usize) -> usize
    ensures { result ≡ slot found count }
{
    match found {
        Some(i) => i,
        None => count,
    }
}

// The number of records once a record is there.
fn count_with(found: Option<usize>, count: usize) -> usize
    requires { count < 18446744073709551615 }
    ensures { result ≡ count_after found count }
{
    match found {
        Some(_) => count,
        None => count + 1,
    }
}

// Puts a row under a key that was looked for, in the place of the row that it had, or last. Returns the number of records.
pub fn put_found(
    list: &mut [u8],
    size: usize,
    count: usize,
    found: Option<usize>,
    key: &[u8],
    row: &[u8],
) -> usize
    requires { (count * size ≤ length list.old) × (length key.now ≡ 32) × (34 + length row.now ≤ size)
        × (slot found count * size + size ≤ length list.old) × (found ≡ find_key key.now (keys size count list.old)) }
    ensures { (result ≡ count_after (find_key key.now (keys size count list.old)) count)
        × (list.new ≡ put_record size count key.now (record_of size key.now row.now) list.old) }
{
    let index = slot_of(found, count);
    record_writing::store(list, index * size, size, key, row);
    count_with(found, count)
}

// Puts a row under a key, in the place of the row that it had, or last. Returns the number of records.
pub fn put(list: &mut [u8], size: usize, count: usize, key: &[u8], row: &[u8]) -> usize
    requires { (count * size ≤ length list.old) × (length key.now ≡ 32) × (34 + length row.now ≤ size)
        × (slot (find_key key.now (keys size count list.old)) count * size + size ≤ length list.old) }
    ensures { (result ≡ count_after (find_key key.now (keys size count list.old)) count)
        × (list.new ≡ put_record size count key.now (record_of size key.now row.now) list.old) }
{
    let found = records::find(list, size, count, key);
    put_found(list, size, count, found, key, row)
}

// Puts a key into a list of keys. Returns the number of keys.
pub fn put_key(list: &mut [u8], count: usize, key: &[u8]) -> usize
    requires { (count * 32 ≤ length list.old) × (length key.now ≡ 32)
        × (slot (find_key key.now (keys 32 count list.old)) count * 32 + 32 ≤ length list.old) }
    ensures { (result ≡ count_after (find_key key.now (keys 32 count list.old)) count)
        × (list.new ≡ put_record 32 count key.now key.now list.old) }
{
    let found = records::find(list, 32, count, key);
    let index = slot_of(found, count);
    stores::copy_bytes(list, index * 32, key);
    count_with(found, count)
}

// Removes the record with an index: the last one takes its place.
pub fn remove(list: &mut [u8], size: usize, count: usize, index: usize)
    requires { (count * size ≤ length list.old) × (index < count) }
    ensures { list.new ≡ remove_record size count index list.old }
{
    let last = (count - 1) * size;
    stores::move_bytes(list, last, index * size, size);
    stores::clear_bytes(list, last, size);
}

// Empties a list: zeros to its capacity.
pub fn clear_list(list: &mut [u8], size: usize, capacity: usize)
    requires { capacity * size ≤ length list.old }
    ensures { list.new ≡ clear_records size capacity list.old }
{
    stores::clear_bytes(list, 0, capacity * size);
}

// Whether a list has no room for a record under a key.
pub fn full_for(list: &[u8], size: usize, counts: ListCounts, key: &[u8]) -> bool
    requires { (32 ≤ size) × (counts.count * size ≤ length list.now) }
    ensures { result ≡ full_for size counts key.now list.now }
{
    let found = records::find(list, size, counts.count, key);
    match found {
        Some(_) => false,
        None => counts.capacity <= counts.count,
    }
}

// Changes of a record list in which no key stands twice, by hints of where its records stand (`record_hints`): the records that a change adds or moves are noted.
#![tactic(auto)]

ghost use Rattle.std.specs.Prelude.{◌≡◌, true, ◌+◌, ◌*◌, ◌≤◌, ◌<◌, length};
ghost use Rattle.records.specs.Records.{keys, record_of};
ghost use Rattle.records.specs.Find.{find_key, distinct};
ghost use Rattle.records.specs.Changes.{slot, count_after, put_record, remove_record};

// Puts a row under a key, in the place of the row that it had, or last. Returns the number of records.
pub fn put(
    list: &mut [u8],
    size: usize,
    count: usize,
    key: &[u8],
    row: &[u8],
    hints: &mut [u16],
) -> usize
    requires { (count * size ≤ length list.old) × (length key.now ≡ 32) × (34 + length row.now ≤ size)
        × (slot (find_key key.now (keys size count list.old)) count * size + size ≤ length list.old) × (distinct (keys size count list.old) ≡ true) }
    ensures { (result ≡ count_after (find_key key.now (keys size count list.old)) count)
        × (list.new ≡ put_record size count key.now (record_of size key.now row.now) list.old) }
{
    let found = record_hints::find_hinted(list, size, count, key, hints);
    let held = record_changes::put_found(list, size, count, found, key, row);
    if count < held {
        record_hints::note_key(key, count, hints);
    }
    held
}

// Removes the record with an index: the last one takes its place.
pub fn remove(list: &mut [u8], size: usize, count: usize, index: usize, hints: &mut [u16])
    requires { (32 ≤ size) × (count * size ≤ length list.old) × (index < count) }
    ensures { list.new ≡ remove_record size count index list.old }
{
    record_hints::note_removal(list, size, count, index, hints);
    record_changes::remove(list, size, count, index);
}

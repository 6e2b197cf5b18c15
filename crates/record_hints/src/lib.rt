// Finding a record without going through the whole list: hints say where a record may stand, and a hint is compared with the key before it is taken.
// A hint is an index plus one; 0 stands for none. A key has two slots among the hints: by its first two bytes, and by the two after them.
#![tactic(auto)]

ghost use Rattle.std.specs.Prelude.{◌≡◌, true, ◌+◌, ◌*◌, ◌-◌, ◌≤◌, ◌<◌, length, Some};
ghost use Rattle.records.specs.Records.{keys};
ghost use Rattle.records.specs.Find.{find_key, distinct, locate_key};

use records::Place;

// Of a list of more records it is noted where they stand before its rows are read.
pub const FEW_RECORDS: usize = 128;

// The hints of a single call.
pub const HINTS: usize = 16384;

// The hints of a batch.
pub const BATCH_HINTS: usize = 65536;

// ---- noting

fn clear_hints(hints: &mut [u16]) {
    hints.fill(0);
}

// The slot of a key among the hints that two of its bytes name.
fn slot_at(key: &[u8], at: usize, slots: usize) -> usize
    requires { (at + 2 ≤ length key.now) × (0 < slots) }
    ensures { result < slots }
{
    let next = at + 1;
    ((key[at] as usize) * 256 + (key[next] as usize)) % slots
}

// Notes an index in a slot that is free, and tells whether it was.
fn note_in(hints: &mut [u16], slot: usize, index: usize) -> bool
    requires { (slot < length hints.old) × (index < 65535) }
{
    if hints[slot] != 0 {
        return false;
    }
    hints[slot] = (index + 1) as u16;
    true
}

// Notes the index of the key at a position.
fn note_place(list: &[u8], at: usize, index: usize, hints: &mut [u16])
    requires { (at + 32 ≤ length list.now) × (index < 65535) × (0 < length hints.old) }
{
    let slots = hints.len();
    let first = slot_at(list, at, slots);
    if note_in(hints, first, index) {
        return;
    }
    let second = slot_at(list, at + 2, slots);
    note_in(hints, second, index);
}

// Notes where each record stands. A later record does not push out an earlier one; one that finds no free slot, and one behind the first 65,535, is not noted.
#[tactic(auto, using(records::proofs::TurnLaws::below_mul))]
pub fn note_places(list: &[u8], size: usize, count: usize, hints: &mut [u16])
    requires { (32 ≤ size) × (count * size ≤ length list.now) }
{
    clear_hints(hints);
    if hints.len() == 0 {
        return;
    }
    for i in 0..count.min(65535) {
        note_place(list, i * size, i, hints);
    }
}

// Notes that the record of a key stands at an index. It is not noted where the key's slots are taken, nor behind the first 65,535 records.
pub fn note_key(key: &[u8], index: usize, hints: &mut [u16])
    requires { 32 ≤ length key.now }
{
    if hints.len() == 0 {
        return;
    }
    if 65535 <= index {
        return;
    }
    note_place(key, 0, index, hints);
}

// Puts a hint in the place of another one, if that stands in a slot.
fn change_in(hints: &mut [u16], slot: usize, old: usize, new: usize)
    requires { (slot < length hints.old) × (new < 65536) }
{
    if hints[slot] as usize == old {
        hints[slot] = new as u16;
    }
}

// Puts a hint in the place of another one in the slots of the key at a position.
fn change_place(list: &[u8], at: usize, old: usize, new: usize, hints: &mut [u16])
    requires { (at + 32 ≤ length list.now) × (new < 65536) × (0 < length hints.old) }
{
    let slots = hints.len();
    let first = slot_at(list, at, slots);
    change_in(hints, first, old, new);
    let second = slot_at(list, at + 2, slots);
    change_in(hints, second, old, new);
}

// Notes what the removal of the record with an index will do: its hint goes, and that of the last record names the index.
pub fn note_removal(list: &[u8], size: usize, count: usize, index: usize, hints: &mut [u16])
    requires { (32 ≤ size) × (count * size ≤ length list.now) × (index < count) }
{
    if hints.len() == 0 {
        return;
    }
    if 65535 <= index {
        return;
    }
    let hint = index + 1;
    change_place(list, index * size, hint, 0, hints);
    change_place(list, (count - 1) * size, count, hint, hints);
}

// ---- finding

// The hint in the slot of a key that two of its bytes name.
fn hint_at(key: &[u8], k: usize, hints: &[u16]) -> usize
    requires { (k + 2 ≤ length key.now) × (0 < length hints.now) }
{
    let slot = slot_at(key, k, hints.len());
    hints[slot] as usize
}

// Whether a hint names the record with the key.
fn holds_at(list: &[u8], size: usize, count: usize, hint: usize, key: &[u8]) -> bool
    requires { (32 ≤ size) × (count * size ≤ length list.now) × (distinct (keys size count list.now) ≡ true) }
    ensures { result ≡ true → (0 < hint) × (find_key key.now (keys size count list.now) ≡ Some (hint - 1)) }
{
    if hint == 0 {
        return false;
    }
    if count < hint {
        return false;
    }
    records::key_is(list, (hint - 1) * size, key)
}

// The index of the record with the key. The records that the hints name are compared first.
pub fn find_hinted(
    list: &[u8],
    size: usize,
    count: usize,
    key: &[u8],
    hints: &[u16],
) -> Option<usize>
    requires { (32 ≤ size) × (count * size ≤ length list.now) × (length key.now ≡ 32) × (distinct (keys size count list.now) ≡ true) }
    ensures { result ≡ find_key key.now (keys size count list.now) }
{
    if hints.len() == 0 {
        return records::find(list, size, count, key);
    }
    let first = hint_at(key, 0, hints);
    if holds_at(list, size, count, first, key) {
        return Some(first - 1);
    }
    let second = hint_at(key, 2, hints);
    if holds_at(list, size, count, second, key) {
        return Some(second - 1);
    }
    records::find(list, size, count, key)
}

// Where the row under a key stands, as `locate` says, for a table in which no key stands twice: the places that the hints name are tried first.
pub fn locate_hinted(
    staged: &[u8],
    staged_count: usize,
    table: &[u8],
    table_count: usize,
    size: usize,
    key: &[u8],
    hints: &[u16],
) -> Place
    requires { (32 ≤ size) × (staged_count * size ≤ length staged.now) × (table_count * size ≤ length table.now) × (length key.now ≡ 32)
        × (distinct (keys size table_count table.now) ≡ true) }
    ensures { result ≡ locate_key size key.now staged_count staged.now table_count table.now }
{
    let among_staged = records::find(staged, size, staged_count, key);
    match among_staged {
        Some(i) => Place::Staged(i),
        None => {
            let in_table = find_hinted(table, size, table_count, key, hints);
            match in_table {
                Some(i) => Place::Table(i),
                None => Place::Missing,
            }
        }
    }
}

// The journal of a driver's accepted calls: a call of an input becomes its newest entry; and when a batch goes on.
#![tactic(auto)]

ghost use Rattle.std.specs.Prelude.{◌≡◌, true, ◌+◌, ◌≤◌, ◌<◌, length, set};
ghost use Rattle.stores.specs.Stores.{write};
ghost use Rattle.driver_core.specs.Bytes.{size_at, entry_of, journal};
ghost use Rattle.driver_core.specs.Apply.{journal_ok};
ghost use Rattle.driver_journal.specs.Journals.{may_go, has_room, kept_by, placed, JournalReady};

use driver_calls::HEADER_BYTES;

// The journal's bytes and its standing calls.
#[derive(Clone, Copy)]
pub struct Place {
    pub used: usize,
    pub standing: usize,
}

// Copies the call at a place of an input behind the entries, its tokens first and its header last; gives the bytes that are used then.
pub fn push(input: &[u8], at: usize, journal: &mut [u8], used: usize) -> usize
    requires { (at + size_at input.now at ≤ length input.now) × (used + size_at input.now at ≤ length journal.old) }
    ensures { (result ≡ used + size_at input.now at) × (journal.new ≡ write used (entry_of input.now at) journal.old) }
{
    let size = driver_calls::size_at(input, at);
    let tokens = at + HEADER_BYTES;
    let end = at + size;
    let behind = stores::put_bytes(&input[tokens..end], journal, used);
    stores::put_bytes(&input[at..tokens], journal, behind)
}

// Whether reading has not ended and another answer has room.
pub fn may_go(made: usize, ended: u8, answers: &[u8]) -> bool
    ensures { result ≡ may_go made ended answers.now }
{
    if ended == 0 {
        return made < answers.len();
    }
    false
}

// The popped number of an answer, where it has a place.
pub fn put_number(numbers: &mut [i64], at: usize, n: i64)
    ensures { numbers.new ≡ set numbers.old at n }
{
    if at < numbers.len() {
        numbers[at] = n;
    }
}

// Whether the journal has room for an entry of so many bytes; what is no entry needs none.
pub fn has_room(journaled: bool, used: usize, size: usize, entries: &[u8]) -> bool
    requires { (used ≤ length entries.now) × (size < 9223372036854775808) }
    ensures { result ≡ has_room journaled used size entries.now }
{
    if journaled {
        return used + size <= entries.len();
    }
    true
}

// An accepted call becomes the newest entry.
pub fn keep(
    journaled: bool,
    code: u8,
    input: &[u8],
    at: usize,
    entries: &mut [u8],
    used: usize,
    standing: usize,
) -> Place
    requires { (at + size_at input.now at ≤ length input.now) × (has_room journaled used (size_at input.now at) entries.old ≡ true) × JournalReady (journal entries.old used standing) }
    ensures { placed result entries.new ≡ kept_by journaled code input.now at (journal entries.old used standing) }
{
    if journaled {
        if code == 0 {
            let next = push(input, at, entries, used);
            return Place {
                used: next,
                standing: standing + 1,
            };
        }
    }
    Place { used, standing }
}

// Whether the journal's bytes are there, and it has no more calls than bytes.
pub fn journal_ok(entries: &[u8], used: usize, standing: usize) -> bool
    ensures { result ≡ journal_ok (journal entries.now used standing) }
{
    if used <= entries.len() {
        return standing <= used;
    }
    false
}

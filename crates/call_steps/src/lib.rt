// One call of the runner on the state of all parents: the types and the definitions, the places of a parent, and what a call says by what a core answered.
// The steps over these are those of `segment_steps` and `balance_steps`.
#![tactic(auto)]

ghost use Rattle.std.specs.Prelude.{◌≡◌, ◌+◌, ◌*◌, ◌≤◌, ◌<◌, length};
ghost use Rattle.index_types.specs.Limits.{segment_threshold};
ghost use Rattle.call_steps.specs.State.{kind_number, parent_id, head_at, head_counts, parent_numbers, parent_ids};
ghost use Rattle.call_steps.specs.Steps.{refused, lengths_by, spills_by, count_step, after_append, after_pop, after_flip, after_flush};

use index_types::{
    Appended, Flipped, Flushed, HeadCounts, ListCounts, Popped, SEGMENT_THRESHOLD, SpillCounts,
};
use segment_id::Kind;

// The places of a parent in the lists of the state: bytes of ids, numbers; where the amounts of its tokens and its nanoErgs stand among its numbers.
pub const PARENT_IDS: usize = 4128;

pub const PARENT_NUMBERS: usize = 1153;

pub const AMOUNTS_AT: usize = 1024;

pub const NANOS_AT: usize = 1152;

// What a call says: the refusal or 0, and a number where one was popped.
#[derive(Clone, Copy)]
pub struct Said {
    pub code: u8,
    pub popped: bool,
    pub number: i64,
}

// What a call says, and the counts of the lists after it.
#[derive(Clone, Copy)]
pub struct Stepped {
    pub said: Said,
    pub counts: SpillCounts,
}

// What a call says that popped no number.
pub fn says(code: u8) -> Said
    ensures { result ≡ refused code }
{
    Said {
        code,
        popped: false,
        number: 0,
    }
}

// ---- a parent's places

fn kind_number(kind: Kind) -> usize
    ensures { result ≡ kind_number kind }
{
    match kind {
        Kind::Box => 0,
        Kind::Tx => 1,
    }
}

// The id of a parent.
pub fn parent_id(ids: &[u8], p: usize) -> [u8; 32]
    requires { p * parent_ids + parent_ids ≤ length ids.now }
    ensures { result ≡ parent_id p ids.now }
{
    let mut id = [0u8; 32];
    let a = p * PARENT_IDS;
    let e = a + 32;
    stores::copy_bytes(&mut id, 0, &ids[a..e]);
    id
}

// The length and the spill count of a parent's head.
pub fn read_counts(kind: Kind, p: usize, lengths: &[usize], spills: &[i32]) -> HeadCounts
    requires { (p * 3 + 3 ≤ length lengths.now) × (p * 2 + 2 ≤ length spills.now) }
    ensures { result ≡ head_counts kind p lengths.now spills.now }
{
    let k = kind_number(kind);
    let len = lengths[p * 3 + k];
    let count = spills[p * 2 + k];
    HeadCounts { len, spills: count }
}

// They take their places.
fn write_counts(kind: Kind, p: usize, counts: HeadCounts, lengths: &mut [usize], spills: &mut [i32])
    requires { (p * 3 + 3 ≤ length lengths.old) × (p * 2 + 2 ≤ length spills.old) }
    ensures { (lengths.new ≡ lengths_by kind p counts lengths.old) × (spills.new ≡ spills_by kind p counts spills.old) }
{
    let k = kind_number(kind);
    let l = p * 3 + k;
    let s = p * 2 + k;
    let len = counts.len;
    let count = counts.spills;
    lengths[l] = len;
    spills[s] = count;
}

// Where a head's places begin.
pub fn head_at(kind: Kind, p: usize) -> usize
    requires { p * parent_numbers + parent_numbers < 9223372036854775808 }
    ensures { (result ≡ head_at kind p) × (result + segment_threshold ≤ p * parent_numbers + parent_numbers) }
{
    p * PARENT_NUMBERS + kind_number(kind) * SEGMENT_THRESHOLD
}

// ---- what a call says, by the core's answer

// What an append says; the head's counts after it take their places.
pub fn after_append(
    r: Appended,
    kind: Kind,
    p: usize,
    counts: SpillCounts,
    lengths: &mut [usize],
    spills: &mut [i32],
) -> Stepped
    requires { (p * 3 + 3 ≤ length lengths.old) × (p * 2 + 2 ≤ length spills.old) }
    ensures { count_step result lengths.new spills.new ≡ after_append r kind p counts lengths.old spills.old }
{
    match r {
        Ok((after, staged)) => {
            let table = counts.table;
            let deleted = counts.deleted;
            write_counts(kind, p, after, lengths, spills);
            Stepped {
                said: says(0),
                counts: SpillCounts {
                    staged,
                    table,
                    deleted,
                },
            }
        }
        Err(code) => Stepped {
            said: says(code),
            counts,
        },
    }
}

// What a spend or an unspend says, and the counts of the lists after it.
pub fn after_flip(r: Flipped, counts: SpillCounts) -> Stepped
    ensures { result ≡ after_flip r counts }
{
    match r {
        Ok(staged) => {
            let table = counts.table;
            let deleted = counts.deleted;
            Stepped {
                said: says(0),
                counts: SpillCounts {
                    staged,
                    table,
                    deleted,
                },
            }
        }
        Err(code) => Stepped {
            said: says(code),
            counts,
        },
    }
}

// What a pop says; the head's counts after it take their places.
pub fn after_pop(
    r: Popped,
    kind: Kind,
    p: usize,
    counts: SpillCounts,
    lengths: &mut [usize],
    spills: &mut [i32],
) -> Stepped
    requires { (p * 3 + 3 ≤ length lengths.old) × (p * 2 + 2 ≤ length spills.old) }
    ensures { count_step result lengths.new spills.new ≡ after_pop r kind p counts lengths.old spills.old }
{
    match r {
        Ok((number, after, staged, deleted)) => {
            let table = counts.table;
            write_counts(kind, p, after, lengths, spills);
            Stepped {
                said: Said {
                    code: 0,
                    popped: true,
                    number,
                },
                counts: SpillCounts {
                    staged,
                    table,
                    deleted,
                },
            }
        }
        Err(code) => Stepped {
            said: says(code),
            counts,
        },
    }
}

// What a flush says, and the counts of the lists after it.
pub fn after_flush(r: Flushed, counts: SpillCounts) -> Stepped
    ensures { result ≡ after_flush r counts }
{
    match r {
        Ok((table, staged, deleted)) => Stepped {
            said: says(0),
            counts: SpillCounts {
                staged,
                table,
                deleted,
            },
        },
        Err(code) => Stepped {
            said: says(code),
            counts,
        },
    }
}

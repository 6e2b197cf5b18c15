// What the call runner starts with (document 01, "Call runner"): the ids of two parents, and empty lists.
#![tactic(auto)]

ghost use Rattle.std.specs.Prelude.{◌≡◌, length};
ghost use Rattle.runner_start.specs.Start.{lists_empty, two_ids};

use call_steps::PARENT_IDS;
use index_types::{ListCounts, SpillCounts};

// The lengths of the call runner's buffers: the blocks of two parents, and the bytes of one staged spill, two rows of the table and two deleted keys.
pub const ALL_IDS: usize = 8256;

pub const ALL_NUMBERS: usize = 2306;

pub const ALL_LENGTHS: usize = 6;

pub const ALL_SPILLS: usize = 4;

pub const STAGED_BYTES: usize = 10288;

pub const TABLE_BYTES: usize = 20576;

pub const DELETED_BYTES: usize = 64;

// The segments table of 2, the staged spills of 1 and the deleted spills of 2, all empty.
pub fn empty_lists() -> SpillCounts
    ensures { result ≡ lists_empty }
{
    let staged = ListCounts {
        count: 0,
        capacity: 1,
    };
    let table = ListCounts {
        count: 0,
        capacity: 2,
    };
    let deleted = ListCounts {
        count: 0,
        capacity: 2,
    };
    SpillCounts {
        staged,
        table,
        deleted,
    }
}

// "ids are the byte 32 times": of the parents 0 and 1, each before the places of its 128 token ids.
pub fn parent_ids() -> [u8; ALL_IDS]
    ensures { (8256 ≡ length result) × (result ≡ two_ids) }
{
    let mut ids = [0u8; ALL_IDS];
    for i in PARENT_IDS..PARENT_IDS + 32 {
        ids[i] = 1;
    }
    ids
}

// An append to a head of 512, for boxes and transactions alike: the head's numbers become the next row.
#![tactic(auto)]

ghost use Rattle.std.specs.Prelude.{◌≡◌, ◌≤◌, ◌<◌, length, set};
ghost use Rattle.index_types.specs.Limits.{segment_threshold};
ghost use Rattle.buffer_core.specs.Edition.{edition_of};
ghost use Rattle.buffer_core.specs.Append.{appending, one_number, spill_of};
ghost use Rattle.append_spill.specs.Internal.{SpillReady};

use index_types::{Appended, HeadCounts, ListCounts, RowEdition, SPILL_LIMIT};
use segment_id::Kind;

// Stores a number at a place of the head.
pub fn put_number(head: &mut [i64], at: usize, number: i64)
    requires { at < length head.old }
    ensures { head.new ≡ set head.old at number }
{
    head[at] = number;
}

// The number becomes the whole head.
fn put_first(head: &mut [i64], number: i64)
    requires { segment_threshold ≤ length head.old }
    ensures { head.new ≡ one_number number head.old }
{
    put_number(head, 0, number);
    stores::clear_numbers(head, 1, 511);
}

// An append to a head of 512: its numbers become the next row.
pub fn spill(
    edition: RowEdition,
    kind: Kind,
    parent: &[u8; 32],
    spills: usize,
    number: i64,
    staged_counts: ListCounts,
    head: &mut [i64],
    staged: &mut [u8],
) -> Appended
    requires { SpillReady edition spills staged_counts head.old staged.old }
    ensures { appending result head.new staged.new
        ≡ spill_of (edition_of edition) kind parent.now spills number staged_counts head.old staged.old }
{
    if SPILL_LIMIT <= spills {
        return Err(refusal::SPILL_COUNT_AT_LIMIT);
    }
    let size = buffer_core::record_size(edition);
    let key = spill_rows::spill_key(kind, parent, spills);
    if record_changes::full_for(staged, size, staged_counts, &key) {
        return Err(refusal::STAGING_FULL);
    }
    let count = append_stage::stage_row(
        edition,
        kind,
        parent,
        spills,
        head,
        staged,
        staged_counts.count,
        &key,
    );
    put_first(head, number);
    let next = signed::i32_from_usize(spills + 1);
    Ok((
        HeadCounts {
            len: 1,
            spills: next,
        },
        ListCounts {
            count,
            capacity: staged_counts.capacity,
        },
    ))
}

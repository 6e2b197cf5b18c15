// Append for boxes and transactions alike, once refusal 25 is tested.
#![tactic(auto)]

ghost use Rattle.std.specs.Prelude.{◌≡◌};
ghost use Rattle.buffer_core.specs.Edition.{edition_of};
ghost use Rattle.buffer_core.specs.Append.{appending, append_core};
ghost use Rattle.append_core.specs.Internal.{AppendReady};

use index_types::{Appended, HeadCounts, ListCounts, RowEdition, SEGMENT_THRESHOLD};
use segment_id::Kind;

// A number goes to the end of the head.
pub fn append(
    edition: RowEdition,
    kind: Kind,
    parent: &[u8; 32],
    counts: HeadCounts,
    number: i64,
    staged_counts: ListCounts,
    head: &mut [i64],
    staged: &mut [u8],
) -> Appended
    requires { AppendReady edition counts staged_counts head.old staged.old }
    ensures { appending result head.new staged.new
        ≡ append_core (edition_of edition) kind parent.now counts number staged_counts head.old staged.old }
{
    let len = counts.len;
    let spills = counts.spills;
    if signed::is_negative_i32(spills) {
        return Err(refusal::NEGATIVE_SPILL_COUNT);
    }
    if signed::is_negative(number) {
        return Err(refusal::NEGATIVE_NUMBER);
    }
    if len < SEGMENT_THRESHOLD {
        append_spill::put_number(head, len, number);
        return Ok((
            HeadCounts {
                len: len + 1,
                spills,
            },
            staged_counts,
        ));
    }
    append_spill::spill(
        edition,
        kind,
        parent,
        signed::usize_from_i32(spills),
        number,
        staged_counts,
        head,
        staged,
    )
}

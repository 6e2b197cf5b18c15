// The missing row of a call, told by the outs of the export that asks for it.
#![tactic(auto)]

ghost use Rattle.std.specs.Prelude.{◌≡◌};
ghost use Rattle.missing_outs.specs.Outs.{missing_out, missing_by};
ghost use Rattle.missing_outs.specs.Internal.{Numbered};

use segment_id::Kind;

// The spill number and the key of the missing row go to the outs, and 12 is the result.
pub fn told(
    kind: Kind,
    parent: &[u8; 32],
    missing: Option<usize>,
    number: &mut i32,
    key: &mut [u8; 32],
) -> u8
    requires { Numbered missing }
    ensures { missing_out result number.new key.new ≡ missing_by kind parent.now number.old key.old missing }
{
    match missing {
        None => 0,
        Some(n) => {
            let row_key = spill_rows::spill_key(kind, parent, n);
            let spill = signed::i32_from_usize(n);
            *key = row_key;
            *number = spill;
            refusal::ROW_MISSING
        }
    }
}

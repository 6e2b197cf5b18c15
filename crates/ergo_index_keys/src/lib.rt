// Digests and row keys, which refuse nothing.
#![tactic(auto)]

ghost use Rattle.std.specs.Prelude.{◌≡◌};
ghost use Rattle.blake2b_core.specs.Blake2b as spec;
ghost use Rattle.segment_id.specs.declared.Kind.TheVariants.{Box, Tx};
ghost use Rattle.segment_id.specs.Key.{row_key};

use segment_id::Kind;

// The BLAKE2b-256 digest of any input.
#[unsafe(no_mangle)]
pub extern "C" fn ergo_index_blake2b256(s: &[u8], out: &mut [u8; 32])
    ensures { out.new ≡ spec.blake2b256 s.now }
{
    let digest = blake2b::blake2b256(s);
    *out = digest;
}

// The key of a parent's row of boxes with this spill number.
#[unsafe(no_mangle)]
pub extern "C" fn ergo_index_box_segment_id(parent: &[u8; 32], number: i32, out: &mut [u8; 32])
    ensures { out.new ≡ row_key parent.now Box number }
{
    let key = segment_id::row_key(parent, Kind::Box, number);
    *out = key;
}

// The key of a parent's row of transactions with this spill number.
#[unsafe(no_mangle)]
pub extern "C" fn ergo_index_tx_segment_id(parent: &[u8; 32], number: i32, out: &mut [u8; 32])
    ensures { out.new ≡ row_key parent.now Tx number }
{
    let key = segment_id::row_key(parent, Kind::Tx, number);
    *out = key;
}

// Digests and row keys, which refuse nothing.
ghost use Rattle.std.specs.Prelude.{◌≡◌};
ghost use Rattle.blake2b_core.specs.Blake2b as spec;
ghost use Rattle.segment_id.specs.declared.Kind.TheVariants.{Box, Tx};
ghost use Rattle.segment_id.specs.Key.{row_key};

// The BLAKE2b-256 digest of any input.
#[unsafe(no_mangle)]
pub extern "C" fn ergo_index_blake2b256(s: &[u8], out: &mut [u8; 32])
    ensures { out.new ≡ spec.blake2b256 s.now }
{
    ergo_index_keys::ergo_index_blake2b256(s, out)
}

// The key of a parent's row of boxes with this spill number.
#[unsafe(no_mangle)]
pub extern "C" fn ergo_index_box_segment_id(parent: &[u8; 32], number: i32, out: &mut [u8; 32])
    ensures { out.new ≡ row_key parent.now Box number }
{
    ergo_index_keys::ergo_index_box_segment_id(parent, number, out)
}

// The key of a parent's row of transactions with this spill number.
#[unsafe(no_mangle)]
pub extern "C" fn ergo_index_tx_segment_id(parent: &[u8; 32], number: i32, out: &mut [u8; 32])
    ensures { out.new ≡ row_key parent.now Tx number }
{
    ergo_index_keys::ergo_index_tx_segment_id(parent, number, out)
}

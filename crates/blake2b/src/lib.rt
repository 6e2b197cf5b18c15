// BLAKE2b-256 of RFC 7693, unkeyed.
#![tactic(auto)]

ghost use Rattle.std.specs.Prelude.{◌≡◌, length};
ghost use Rattle.blake2b_core.specs.Blake2b as spec;

// The BLAKE2b-256 digest of any input.
pub fn blake2b256(s: &[u8]) -> [u8; 32]
    ensures { (result ≡ spec.blake2b256 s.now) × (32 ≡ length result) }
{
    let mut out = [0u8; 32];
    blake2b_core::digest_into(s, &mut out);
    out
}

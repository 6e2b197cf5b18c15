// Copies, fills and moves within borrowed slices of bytes and of numbers, and equality of byte strings.
#![tactic(auto)]

ghost use Rattle.std.specs.Prelude.{◌≡◌, ◌+◌, ◌<◌, ◌≤◌, pos, length, take, drop, replicate, [], ◌∷◌};
ghost use Rattle.stores.specs.Stores.{write, Put};
ghost use Rattle.stores.specs.Equal.{same_bytes};

// Copies src into dst from `at` on.
#[tactic(auto, unfolding(crate::specs::Stores::write))]
pub fn copy_bytes(dst: &mut [u8], at: usize, src: &[u8])
    requires { at + length src.now ≤ length dst.old }
    ensures { dst.new ≡ write at src.now dst.old }
{
    let end = at + src.len();
    dst[at..end].copy_from_slice(src);
}

// Writes src from `at` on, and gives the position behind it.
pub fn put_bytes(src: &[u8], out: &mut [u8], at: usize) -> usize
    requires { at + length src.now ≤ length out.old }
    ensures { Put src.now out.old at result out.new }
{
    copy_bytes(out, at, src);
    at + src.len()
}

// Writes one byte at a position, and gives the position behind it.
pub fn put_byte(byte: u8, out: &mut [u8], at: usize) -> usize
    requires { at < length out.old }
    ensures { Put (byte ∷ []) out.old at result out.new }
{
    out[at] = byte;
    at + 1
}

// Sets n bytes from `at` on to 0.
#[tactic(auto, unfolding(crate::specs::Stores::write))]
pub fn clear_bytes(dst: &mut [u8], at: usize, n: usize)
    requires { at + n ≤ length dst.old }
    ensures { dst.new ≡ write at (replicate n 0) dst.old }
{
    let end = at + n;
    dst[at..end].fill(0);
}

// Copies the `count` bytes from `from` on to the places from `to` on, which does not lie behind `from`. A loop, for speed: it becomes a memmove, and `copy_within`
// does not.
pub fn move_bytes(dst: &mut [u8], from: usize, to: usize, count: usize)
    requires { (to ≤ from) × (from + count ≤ length dst.old) }
    ensures { dst.new ≡ write to (take count (drop from dst.old)) dst.old }
{
    for j in 0..count {
        dst[to + j] = dst[from + j];
    }
}

// Copies src into dst from `at` on.
#[tactic(auto, unfolding(crate::specs::Stores::write))]
pub fn copy_numbers(dst: &mut [i64], at: usize, src: &[i64])
    requires { at + length src.now ≤ length dst.old }
    ensures { dst.new ≡ write at src.now dst.old }
{
    dst[at..at + src.len()].copy_from_slice(src);
}

// Sets n numbers from `at` on to 0.
#[tactic(auto, unfolding(crate::specs::Stores::write))]
pub fn clear_numbers(dst: &mut [i64], at: usize, n: usize)
    requires { at + n ≤ length dst.old }
    ensures { dst.new ≡ write at (replicate n (pos 0)) dst.old }
{
    dst[at..at + n].fill(0);
}

// Copies the `count` numbers from `from` on to the places from `to` on, which does not lie behind `from`.
#[tactic(auto, unfolding(crate::specs::Stores::write))]
pub fn move_numbers(dst: &mut [i64], from: usize, to: usize, count: usize)
    requires { (to ≤ from) × (from + count ≤ length dst.old) }
    ensures { dst.new ≡ write to (take count (drop from dst.old)) dst.old }
{
    dst.copy_within(from..from + count, to);
}

// Whether two byte strings are equal.
#[tactic(auto, using(crate::proofs::EqualLaws::same_is_eq))]
pub fn same_bytes(a: &[u8], b: &[u8]) -> bool
    ensures { result ≡ same_bytes a.now b.now }
{
    a == b
}

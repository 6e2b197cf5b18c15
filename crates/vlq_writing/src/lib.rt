// Coded numbers written: a signed number as an unsigned one (zigzag), its length, and its groups of 7 bits, lowest first.
// Internal: the writers ask for room. The public calls are those of `vlq`.
#![tactic(auto)]

ghost use Rattle.std.specs.Prelude.{◌≡◌, ◌+◌, ◌≤◌, length};
ghost use Rattle.stores.specs.Stores.{Put};
ghost use Rattle.vlq_core.specs.Zigzag.{zig};
ghost use Rattle.vlq_core.specs.Groups.{enc};

// The coded number of a signed one.
pub fn zigzag(n: i64) -> u64
    ensures { result ≡ zig n }
{
    if n < 0 {
        2 * ((-1 - n) as u64) + 1
    } else {
        2 * (n as u64)
    }
}

// The same at 32 bits.
pub fn zigzag_i32(n: i32) -> u32
    ensures { result ≡ zig n }
{
    if n < 0 {
        2 * ((-1 - n) as u32) + 1
    } else {
        2 * (n as u32)
    }
}

// The number of groups of a coded number, from its leading zeros.
pub fn encoded_len(coded: u64) -> usize
    ensures { (result ≡ length (enc coded)) × (result ≤ 10) }
{
    if coded == 0 {
        return 1;
    }
    ((63 - u64::leading_zeros(coded)) / 7 + 1) as usize
}

// The number of bytes of a signed number.
pub fn number_len(n: i64) -> usize
    ensures { (result ≡ length (enc (zig n))) × (result ≤ 10) }
{
    encoded_len(zigzag(n))
}

// The same at 32 bits.
pub fn number_len_i32(n: i32) -> usize
    ensures { (result ≡ length (enc (zig n))) × (result ≤ 5) }
{
    encoded_len(zigzag_i32(n) as u64)
}

// Writes the groups of a coded number where they fit: the position after them.
pub fn emit(coded: u64, out: &mut [u8], at: usize) -> usize
    requires { at + length (enc coded) ≤ length out.old }
    ensures { Put (enc coded) out.old at result out.new }
{
    let mut c = coded;
    let mut i = at;
    while 128 <= c {
        out[i] = (128 + c % 128) as u8;
        c = c / 128;
        i = i + 1;
    }
    out[i] = c as u8;
    i + 1
}

// Writes a signed number where it fits: the position after it.
pub fn emit_i64(n: i64, out: &mut [u8], at: usize) -> usize
    requires { at + length (enc (zig n)) ≤ length out.old }
    ensures { Put (enc (zig n)) out.old at result out.new }
{
    emit(zigzag(n), out, at)
}

// The same at 32 bits.
pub fn emit_i32(n: i32, out: &mut [u8], at: usize) -> usize
    requires { at + length (enc (zig n)) ≤ length out.old }
    ensures { Put (enc (zig n)) out.old at result out.new }
{
    emit(zigzag_i32(n) as u64, out, at)
}

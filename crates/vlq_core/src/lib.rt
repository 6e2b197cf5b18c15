// Coded numbers: a signed number as an unsigned one (zigzag), and that one in groups of 7 bits, lowest first: definitions and laws.
// Internal: numbers are written by `vlq_writing` and read by `vlq_reading` and `vlq_short`. The public calls are those of `vlq`.
#![tactic(auto)]

ghost use Rattle.std.specs.Prelude.{◌≡◌, ◌+◌, leb};

// A coded number that was read and the position after it, or the refusal code.
pub type Got = Result<(u64, usize), u8>;

// A coded number of a few groups and how many they are; no group stands for any other number.
#[derive(Clone, Copy)]
pub struct Short {
    pub coded: u64,
    pub size: usize,
}

// Whether n bytes from a position on lie within a slice of len bytes.
pub fn has_room(len: usize, at: usize, n: usize) -> bool
    ensures { result ≡ leb (at + n) len }
{
    if len < at {
        return false;
    }
    n <= len - at
}

// A byte as a 64-bit number.
pub fn wide(b: u8) -> u64
    ensures { result ≡ b }
{
    b as u64
}

// Coded numbers of at most four groups, which most numbers are: read without a loop.
// Internal: any number is read by `vlq_reading`.
#![tactic(auto)]

ghost use Rattle.std.specs.Prelude.{◌≡◌};
ghost use Rattle.vlq_core.specs.Reading.{read_at, short_of};

use vlq_core::Short;

// The coded number at a position if it has at most four groups, the last not 0, and four bytes are there.
pub fn get_short(src: &[u8], at: usize) -> Short
    ensures { short_of result at (read_at 64 src.now at) ≡ read_at 64 src.now at }
{
    if src.len() < 4 {
        return Short { coded: 0, size: 0 };
    }
    if src.len() - 4 < at {
        return Short { coded: 0, size: 0 };
    }
    let a = vlq_core::wide(src[at]);
    if a < 128 {
        return Short { coded: a, size: 1 };
    }
    let second = at + 1;
    let b = vlq_core::wide(src[second]);
    if b == 0 {
        return Short { coded: 0, size: 0 };
    }
    if b < 128 {
        return Short {
            coded: a % 128 + 128 * b,
            size: 2,
        };
    }
    let third = at + 2;
    let c = vlq_core::wide(src[third]);
    if c == 0 {
        return Short { coded: 0, size: 0 };
    }
    if c < 128 {
        return Short {
            coded: a % 128 + 128 * (b % 128) + 16384 * c,
            size: 3,
        };
    }
    let fourth = at + 3;
    let d = vlq_core::wide(src[fourth]);
    if d == 0 {
        return Short { coded: 0, size: 0 };
    }
    if d < 128 {
        return Short {
            coded: a % 128 + 128 * (b % 128) + 16384 * (c % 128) + 2097152 * d,
            size: 4,
        };
    }
    Short { coded: 0, size: 0 }
}

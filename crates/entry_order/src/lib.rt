// The order of the signed entries of a head or a row.
#![tactic(auto)]

ghost use Rattle.std.specs.Prelude.{◌≡◌, ◌||◌, ◌≤◌, ltb, length, take};
ghost use Rattle.entries.specs.Order.{order_ok};

// The absolute value that no entry may have: that of -2^63.
const LIMIT: u64 = 9223372036854775808;

// Whether one of four absolute values falls, from the one before them on. All four are compared, with no branch between.
fn four_fall(prev: u64, a: u64, b: u64, c: u64, d: u64) -> bool
    ensures { result ≡ ltb a prev || (ltb b a || (ltb c b || ltb d c)) }
{
    (a < prev) | ((b < a) | ((c < b) | (d < c)))
}

// Whether none of the first n numbers is -2^63 and their absolute values never fall. As they never fall, only the last is tested against 2^63.
pub fn order_ok(xs: &[i64], n: usize) -> bool
    requires { n ≤ length xs.now }
    ensures { result ≡ order_ok (take n xs.now) }
{
    let (fours, rest) = xs[..n].as_chunks::<4>();
    let mut prev: u64 = 0;
    for [a, b, c, d] in fours {
        let a = signed::magnitude(*a);
        let b = signed::magnitude(*b);
        let c = signed::magnitude(*c);
        let d = signed::magnitude(*d);
        if four_fall(prev, a, b, c, d) {
            return false;
        }
        prev = d;
    }
    for x in rest {
        let a = signed::magnitude(*x);
        if a < prev {
            return false;
        }
        prev = a;
    }
    prev < LIMIT
}

// The figure that a statement shows for an amount of nanoErgs.
#![tactic(auto)]

ghost use Rattle.std.specs.Prelude.{◌≡◌};
ghost use Rattle.statement.specs.Statement.{milli_ergs};

// MilliErgs, rounded to the nearest, an exact half to the even neighbour. To what is short of the half by one, one is added where the figure below is odd.
pub fn statement_milli_ergs(nano_ergs: i64) -> i64
    ensures { result ≡ milli_ergs nano_ergs }
{
    let m = signed::magnitude(nano_ergs);
    let odd = m / 1_000_000 % 2;
    if signed::is_negative(nano_ergs) {
        let below = (m + 499_999 + odd) / 1_000_000;
        return signed::negate(signed::i64_from_u64(below));
    }
    let above = (m + 499_999 + odd) / 1_000_000;
    signed::i64_from_u64(above)
}

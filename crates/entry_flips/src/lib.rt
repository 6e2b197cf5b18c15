// The entry of a head or a row that a spend or an unspend takes: where it stands, and the entry negated.
#![tactic(auto)]

ghost use Rattle.std.specs.Prelude.{◌≡◌, true, false, cond, pos, nat_abs, length, take, get_or, ◌<◌, ◌≤◌};
ghost use Rattle.entries.specs.declared.Position.{Position};
ghost use Rattle.entries.specs.declared.Position.TheVariants.{Seen, Absent};
ghost use Rattle.entries.specs.Order.{order_ok, Below, From};
ghost use Rattle.entries.specs.Flip.{position, flipped_at};

use entries::Position;

// The first place of the first n, which are in order, whose absolute value is at least the target; or n.
fn place_from(xs: &[i64], n: usize, target: u64) -> usize
    requires { (n ≤ length xs.now) × (order_ok (take n xs.now) ≡ true) }
    ensures { (result ≤ n) × Below target result xs.now × From target result n xs.now }
{
    xs[..n].partition_point(|x| signed::magnitude(*x) < target)
}

fn not_taken(seen: bool) -> Position
    ensures { result ≡ cond seen Seen Absent }
{
    if seen {
        Position::Seen
    } else {
        Position::Absent
    }
}

// The first entry of the target's absolute value and the wanted sign among the first n, which are in order.
pub fn flip_position(xs: &[i64], n: usize, target: u64, spend: bool) -> Position
    requires { (n ≤ length xs.now) × (order_ok (take n xs.now) ≡ true) }
    ensures { result ≡ position spend target (take n xs.now) 0 false }
{
    let mut seen = false;
    for i in place_from(xs, n, target)..n {
        let x = xs[i];
        if target < signed::magnitude(x) {
            return not_taken(seen);
        }
        if signed::is_wanted(spend, x) {
            return Position::At(i);
        }
        seen = true;
    }
    not_taken(seen)
}

// Negates the number at a place.
pub fn flip_at(xs: &mut [i64], i: usize)
    requires { (i < length xs.old) × (nat_abs (get_or xs.old i (pos 0)) < 9223372036854775808) }
    ensures { xs.new ≡ flipped_at (Position.At i) xs.old }
{
    let x = xs[i];
    xs[i] = signed::negate(x);
}

// How many entries of a head or a row are unspent, spent and unknown, and the sums of these figures.
#![tactic(auto)]

ghost use Rattle.std.specs.Prelude.{◌≡◌, ◌+◌, ◌≤◌, ◌<◌, length, take};
ghost use Rattle.signed.specs.Sign.{is_negative};
ghost use Rattle.entries.specs.Tally.{is_above, one_if, figures, plus};

use index_types::Tally;

// 1 for a number above 0.
fn one_above(x: i64) -> usize
    ensures { result ≡ one_if (is_above x) }
{
    if signed::is_negative(x) {
        return 0;
    }
    if signed::magnitude(x) == 0 {
        return 0;
    }
    1
}

// 1 for a number below 0.
fn one_below(x: i64) -> usize
    ensures { result ≡ one_if (is_negative x) }
{
    if signed::is_negative(x) { 1 } else { 0 }
}

// The figures of the first n numbers.
pub fn tally_entries(xs: &[i64], n: usize) -> Tally
    requires { n ≤ length xs.now }
    ensures { result ≡ figures (take n xs.now) }
{
    let mut unspent = 0;
    let mut spent = 0;
    for x in &xs[..n] {
        unspent += one_above(*x);
        spent += one_below(*x);
    }
    Tally {
        unspent,
        spent,
        unknown: n - unspent - spent,
    }
}

// The sums of two tallies' figures.
pub fn plus(a: Tally, b: Tally) -> Tally
    requires { (a.unspent + b.unspent < 18446744073709551616) × (a.spent + b.spent < 18446744073709551616)
        × (a.unknown + b.unknown < 18446744073709551616) }
    ensures { result ≡ plus a b }
{
    Tally {
        unspent: a.unspent + b.unspent,
        spent: a.spent + b.spent,
        unknown: a.unknown + b.unknown,
    }
}

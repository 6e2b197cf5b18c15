// The entries above 0 of a head or a row, put into a page: the newest first, the first of them passed over, until the page has what is wanted.
#![tactic(auto)]

ghost use Rattle.std.specs.Prelude.{◌≡◌, [], ◌∷◌, ◌≤◌, length, take};
ghost use Rattle.entries.specs.Tally.{is_above};
ghost use Rattle.entries.specs.Unspent.{unspent_newest_first};
ghost use Rattle.page_entries.specs.Internal.{Ready, Filled};

// How many of the numbers to come are passed over, and how many stand in the page.
#[derive(Clone, Copy)]
pub struct Filling {
    pub skip: usize,
    pub put: usize,
}

// Whether a number is above 0.
fn is_above(x: i64) -> bool
    ensures { result ≡ is_above x }
{
    if signed::is_negative(x) {
        return false;
    }
    0 < signed::magnitude(x)
}

// One number more, older than those before it.
fn put_one(x: i64, wanted: usize, filling: Filling, page: &mut [i64; entries::PAGE]) -> Filling
    requires { Ready wanted filling page.old }
    ensures { Filled wanted (unspent_newest_first (x ∷ [])) filling page.old result page.new }
{
    let skip = filling.skip;
    let put = filling.put;
    if !is_above(x) {
        return filling;
    }
    if 0 < skip {
        return Filling {
            skip: skip - 1,
            put,
        };
    }
    if wanted <= put {
        return filling;
    }
    page[put] = x;
    Filling { skip, put: put + 1 }
}

// The first n numbers, from the last of them down.
pub fn put_newest(
    xs: &[i64],
    n: usize,
    wanted: usize,
    filling: Filling,
    page: &mut [i64; entries::PAGE],
) -> Filling
    requires { (n ≤ length xs.now) × Ready wanted filling page.old }
    ensures { Filled wanted (unspent_newest_first (take n xs.now)) filling page.old result page.new }
{
    let mut filled = filling;
    for at in (0..n).rev() {
        let x = xs[at];
        filled = put_one(x, wanted, filled, page);
    }
    filled
}

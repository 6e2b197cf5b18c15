// The short histories that go on from some calls, written into borrowed bytes: each is a byte of its length and one byte per call, 1 to 6 by rank.
#![tactic(auto)]

ghost use Rattle.std.specs.Prelude.{[], ◌∷◌, map, ◌+◌, ◌≤◌, length};
ghost use Rattle.stores.specs.Stores.{Put};
ghost use Rattle.history_steps.specs.Ranks.{number, ranks_in};
ghost use Rattle.history_growth.specs.Listing.{bytes_of};
ghost use Rattle.history_growth.specs.Internal.{oldest_first, going_on};

use history_steps::{Rank, RankList};

// How many ranks there are.
const RANKS: u8 = 6;

// Writes the calls of a list, the oldest first.
fn put_calls(l: RankList, out: &mut [u8], at: usize) -> usize
    requires { (l.len ≤ 5) × (at + l.len ≤ length out.old) }
    ensures { Put (map number (oldest_first (ranks_in l))) out.old at result out.new }
{
    let len = l.len;
    if len == 0 {
        return at;
    }
    let newest = l.a;
    let o = put_calls(history_steps::without_newest(l), out, at);
    stores::put_byte(history_steps::number(newest), out, o)
}

// Writes a history: its length, and its calls.
fn put_history(l: RankList, out: &mut [u8], at: usize) -> usize
    requires { (l.len ≤ 5) × (at + (l.len + 1) ≤ length out.old) }
    ensures { Put (bytes_of (oldest_first (ranks_in l) ∷ [])) out.old at result out.new }
{
    let len = l.len;
    let o = stores::put_byte(len, out, at);
    put_calls(l, out, o)
}

// Writes the histories that go on by `left` calls from those so far, the first at place i of the ranks or behind it.
pub fn grow(
    left: u8,
    i: u8,
    standing: RankList,
    last: Rank,
    so_far: RankList,
    out: &mut [u8],
    at: usize,
) -> usize
    requires { (i ≤ 6) × (standing.len + left ≤ 5) × (so_far.len + left ≤ 5)
        × (at + length (bytes_of (going_on left i (ranks_in standing) last (ranks_in so_far))) ≤ length out.old) }
    ensures { Put (bytes_of (going_on left i (ranks_in standing) last (ranks_in so_far))) out.old at result out.new }
{
    if left == 0 {
        return put_history(so_far, out, at);
    }
    if RANKS <= i {
        return at;
    }
    let k = history_steps::rank_at(i);
    if history_steps::may(k, standing, last) {
        let next = history_steps::stood(k, standing);
        let longer = history_steps::with_newest(k, so_far);
        let o = grow(left - 1, 0, next, k, longer, out, at);
        return grow(left, i + 1, standing, last, so_far, out, o);
    }
    grow(left, i + 1, standing, last, so_far, out, at)
}

// The calls of a short history (document 02, U10), and which of them may come next.
#![tactic(auto)]

ghost use Rattle.std.specs.Prelude.{◌≡◌, ◌&&◌, [], ◌∷◌, ◌+◌, ◌-◌, ◌≤◌, ltb, get_or};
ghost use Rattle.history_steps.specs.declared.Rank.TheVariants.{Flush};
ghost use Rattle.history_steps.specs.Ranks.{ranks, number, ranks_in};
ghost use Rattle.history_steps.specs.Legal.{count, none, some, before, lets_call, lets_undo, may, stood};

// The calls, ranked in this sequence.
#[derive(Clone, Copy)]
pub enum Rank {
    Append1,
    Append2,
    Spend1,
    Spend2,
    Undo,
    Flush,
}

// At most five calls, the newest first: `a` and so on, as many as `len` says.
#[derive(Clone, Copy)]
pub struct RankList {
    pub len: u8,
    pub a: Rank,
    pub b: Rank,
    pub c: Rank,
    pub d: Rank,
    pub e: Rank,
}

// ---- the ranks

// The number of a call, 1 to 6 by rank.
pub fn number(k: Rank) -> u8
    ensures { result ≡ number k }
{
    match k {
        Rank::Append1 => 1,
        Rank::Append2 => 2,
        Rank::Spend1 => 3,
        Rank::Spend2 => 4,
        Rank::Undo => 5,
        Rank::Flush => 6,
    }
}

// The call at a place of the sequence, counted from 0.
pub fn rank_at(i: u8) -> Rank
    ensures { result ≡ get_or ranks i Flush }
{
    match i {
        0 => Rank::Append1,
        1 => Rank::Append2,
        2 => Rank::Spend1,
        3 => Rank::Spend2,
        4 => Rank::Undo,
        _ => Rank::Flush,
    }
}

// ---- lists of calls

// No call.
pub fn no_calls() -> RankList
    ensures { (ranks_in result ≡ []) × (result.len ≡ 0) }
{
    RankList {
        len: 0,
        a: Rank::Flush,
        b: Rank::Flush,
        c: Rank::Flush,
        d: Rank::Flush,
        e: Rank::Flush,
    }
}

// A newer call before the others.
pub fn with_newest(k: Rank, l: RankList) -> RankList
    requires { l.len ≤ 4 }
    ensures { (ranks_in result ≡ k ∷ ranks_in l) × (result.len ≡ l.len + 1) }
{
    let len = l.len;
    let a = l.a;
    let b = l.b;
    let c = l.c;
    let d = l.d;
    RankList {
        len: len + 1,
        a: k,
        b: a,
        c: b,
        d: c,
        e: d,
    }
}

// The calls without the newest.
pub fn without_newest(l: RankList) -> RankList
    requires { l.len ≤ 5 }
    ensures { (ranks_in result ≡ before (ranks_in l)) × (result.len ≡ l.len - 1) }
{
    let len = l.len;
    if len == 0 {
        return l;
    }
    let b = l.b;
    let c = l.c;
    let d = l.d;
    let e = l.e;
    RankList {
        len: len - 1,
        a: b,
        b: c,
        c: d,
        d: e,
        e: Rank::Flush,
    }
}

// How many of the calls are k.
fn count(k: Rank, l: RankList) -> u8
    requires { l.len ≤ 5 }
    ensures { result ≡ count k (ranks_in l) }
{
    let len = l.len;
    if len == 0 {
        return 0;
    }
    let newest = l.a;
    let rest = count(k, without_newest(l));
    if number(newest) == number(k) {
        return rest + 1;
    }
    rest
}

// ---- what may come next

// Whether none of the calls is k.
fn none(k: Rank, l: RankList) -> bool
    requires { l.len ≤ 5 }
    ensures { result ≡ none k (ranks_in l) }
{
    let n = count(k, l);
    n == 0
}

// Whether fewer of the calls are j than are k.
fn fewer(j: Rank, k: Rank, l: RankList) -> bool
    requires { l.len ≤ 5 }
    ensures { result ≡ ltb (count j (ranks_in l)) (count k (ranks_in l)) }
{
    let m = count(j, l);
    let n = count(k, l);
    m < n
}

// Whether there is a call.
fn some(l: RankList) -> bool
    requires { l.len ≤ 5 }
    ensures { result ≡ some (ranks_in l) }
{
    0 < l.len
}

// Whether an append or a spend may follow: behind an undo there is a flush first.
fn lets_call(last: Rank) -> bool
    ensures { result ≡ lets_call last }
{
    match last {
        Rank::Append1 => true,
        Rank::Append2 => true,
        Rank::Spend1 => true,
        Rank::Spend2 => true,
        Rank::Undo => false,
        Rank::Flush => true,
    }
}

// Whether an undo may follow: behind an append or a spend there is a flush first.
fn lets_undo(last: Rank) -> bool
    ensures { result ≡ lets_undo last }
{
    match last {
        Rank::Append1 => false,
        Rank::Append2 => false,
        Rank::Spend1 => false,
        Rank::Spend2 => false,
        Rank::Undo => true,
        Rank::Flush => true,
    }
}

fn both(x: bool, y: bool) -> bool
    ensures { result ≡ x && y }
{
    if x {
        return y;
    }
    false
}

// Whether the call k may come next, by the standing calls and the last call of the list.
pub fn may(k: Rank, standing: RankList, last: Rank) -> bool
    requires { standing.len ≤ 5 }
    ensures { result ≡ may k (ranks_in standing) last }
{
    match k {
        Rank::Append1 => both(
            lets_call(last),
            both(none(Rank::Append2, standing), none(Rank::Spend1, standing)),
        ),
        Rank::Append2 => both(lets_call(last), none(Rank::Spend2, standing)),
        Rank::Spend1 => both(
            lets_call(last),
            fewer(Rank::Spend1, Rank::Append1, standing),
        ),
        Rank::Spend2 => both(
            lets_call(last),
            fewer(Rank::Spend2, Rank::Append2, standing),
        ),
        Rank::Undo => both(lets_undo(last), some(standing)),
        Rank::Flush => true,
    }
}

// The standing calls after k, which was accepted.
pub fn stood(k: Rank, standing: RankList) -> RankList
    requires { standing.len ≤ 4 }
    ensures { (ranks_in result ≡ stood k (ranks_in standing)) × (result.len ≤ standing.len + 1) }
{
    match k {
        Rank::Append1 => with_newest(Rank::Append1, standing),
        Rank::Append2 => with_newest(Rank::Append2, standing),
        Rank::Spend1 => with_newest(Rank::Spend1, standing),
        Rank::Spend2 => with_newest(Rank::Spend2, standing),
        Rank::Undo => without_newest(standing),
        Rank::Flush => standing,
    }
}

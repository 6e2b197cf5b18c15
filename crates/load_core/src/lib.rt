// The calls of a load that can be repeated (document 02, U11), drawn one after the other from a state of 64 bits.
#![tactic(auto)]

ghost use Rattle.std.specs.Prelude.{◌≡◌, ◌<◌};
ghost use Rattle.load_core.specs.Draw.{draw, next_box, next_tx, next_spend, pick, draws};

use buffer_core::Direction;
use calls::Call;
use segment_id::Kind;

// The generator: its state, and how many boxes and how many transactions it has appended so far.
#[derive(Clone, Copy)]
pub struct Source {
    pub state: u64,
    pub boxes: u64,
    pub txs: u64,
}

// A call, and the generator after it.
#[derive(Clone, Copy)]
pub struct Drawn {
    pub call: Call,
    pub next: Source,
}

// The state after x, which is the draw.
fn draw(x: u64) -> u64
    ensures { result ≡ draw x }
{
    let a = x ^ (x << 13);
    let b = a ^ (a >> 7);
    b ^ (b << 17)
}

// Appends the next box number.
fn next_box(d: u64, g: Source) -> Drawn
    requires { g.boxes < 9223372036854775808 }
    ensures { result ≡ next_box d g }
{
    let boxes = g.boxes;
    let txs = g.txs;
    let number = signed::i64_from_u64(boxes);
    Drawn {
        call: Call::Append(Kind::Box, 0, number),
        next: Source {
            state: d,
            boxes: boxes + 1,
            txs,
        },
    }
}

// Appends the next transaction number.
fn next_tx(d: u64, g: Source) -> Drawn
    requires { g.txs < 9223372036854775808 }
    ensures { result ≡ next_tx d g }
{
    let boxes = g.boxes;
    let txs = g.txs;
    let number = signed::i64_from_u64(txs);
    Drawn {
        call: Call::Append(Kind::Tx, 0, number),
        next: Source {
            state: d,
            boxes,
            txs: txs + 1,
        },
    }
}

// Spends one of the boxes appended so far, of which there is one at least.
fn next_spend(d: u64, g: Source) -> Drawn
    requires { (0 < g.boxes) × (g.boxes < 9223372036854775808) }
    ensures { result ≡ next_spend d g }
{
    let boxes = g.boxes;
    let txs = g.txs;
    let number = signed::i64_from_u64(d / 8 % boxes);
    Drawn {
        call: Call::Flip(Direction::Spend, 0, number),
        next: Source {
            state: d,
            boxes,
            txs,
        },
    }
}

// The call that the draw d picks.
fn pick(d: u64, g: Source) -> Drawn
    requires { (g.boxes < 9223372036854775808) × (g.txs < 9223372036854775808) }
    ensures { result ≡ pick d g }
{
    let boxes = g.boxes;
    let txs = g.txs;
    let k = d % 8;
    if k < 4 {
        return next_box(d, g);
    }
    if k < 6 {
        if boxes == 0 {
            return next_box(d, g);
        }
        return next_spend(d, g);
    }
    if k == 6 {
        return next_tx(d, g);
    }
    Drawn {
        call: Call::Flush,
        next: Source {
            state: d,
            boxes,
            txs,
        },
    }
}

// The next call, and the generator after it.
pub fn next_call(g: Source) -> Drawn
    requires { (g.boxes < 9223372036854775808) × (g.txs < 9223372036854775808) }
    ensures { result ≡ draws g }
{
    let state = g.state;
    let d = draw(state);
    pick(d, g)
}

// Pruning: which heights keep their undo entries. Users name it by `undo::prune`.
#![tactic(auto)]

ghost use Rattle.std.specs.Prelude.{◌≡◌, ◌+◌, ◌-◌, ◌≤◌, length, take, drop, replicate};
ghost use Rattle.stores.specs.Stores.{write};
ghost use Rattle.undo_pruning.specs.Prune.{Compacts, window_of, pruned_of, pruning};

// How many heights below the current one keep their undo entries where no window is named.
pub const ROLLBACK_WINDOW: u64 = 720;

#[derive(Clone, Copy)]
pub enum Window {
    Named(u64),
    Unnamed,
}

pub type Pruned = Result<usize, u8>;

// The window, in heights.
fn window_length(window: Window) -> u64
    ensures { result ≡ window_of window }
{
    match window {
        Window::Named(heights) => heights,
        Window::Unnamed => ROLLBACK_WINDOW,
    }
}

// The lowest height that is kept.
fn lowest_kept(current: u64, window: u64) -> u64
    ensures { result ≡ current - window }
{
    if current <= window {
        return 0;
    }
    current - window
}

// Moves those of the first `count` heights that are at least `lowest` to the front, in their order, and gives how many they are.
fn compact(heights: &mut [u64], count: usize, lowest: u64) -> usize
    requires { count ≤ length heights.old }
    ensures { Compacts lowest count heights.old result heights.new }
{
    let mut n = 0;
    for i in 0..count {
        let h = heights[i];
        heights[n] = h;
        if lowest <= h {
            n += 1;
        }
    }
    n
}

// Sets the heights from one place up to another to zero.
#[tactic(auto, unfolding(stores::specs::Stores::write))]
fn clear(heights: &mut [u64], from: usize, to: usize)
    requires { (from ≤ to) × (to ≤ length heights.old) }
    ensures { heights.new ≡ write from (replicate (to - from) 0) heights.old }
{
    heights[from..to].fill(0);
}

// Keeps the heights within the window below the current one; the places behind them are zero up to the capacity.
pub fn prune_below_window(
    heights: &mut [u64],
    count: usize,
    capacity: usize,
    current: u64,
    window: Window,
) -> Pruned
    ensures { pruning result heights.new ≡ pruned_of count capacity current (window_of window) heights.old }
{
    if capacity < count {
        return Err(refusal::BUFFERS);
    }
    if heights.len() < capacity {
        return Err(refusal::BUFFERS);
    }
    let lowest = lowest_kept(current, window_length(window));
    let n = compact(heights, count, lowest);
    clear(heights, n, capacity);
    Ok(n)
}

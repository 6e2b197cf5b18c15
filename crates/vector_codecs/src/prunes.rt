// Heights that pruning keeps, and milliErgs of a statement, a line each.
ghost use Rattle.index_types.specs.Limits.{segment_threshold};
ghost use Rattle.std.specs.Prelude.{◌≡◌, ◌≤◌, length};

use index_types::SEGMENT_THRESHOLD;
use std::io;
use std::io::Write;
use undo::prune::{Pruned, Window};

fn heights_of(list: &[i64; SEGMENT_THRESHOLD]) -> [u64; SEGMENT_THRESHOLD]
    ensures { segment_threshold ≡ length result }
{
    let mut heights = [0u64; SEGMENT_THRESHOLD];
    for i in 0..512 {
        heights[i] = signed::magnitude(list[i]);
    }
    heights
}

fn show<W: Write>(to: &mut W, name: &[u8], heights: &[u64], n: usize) -> io::Result<()> {
    vector_line::accepted(to, name)?;
    vector_line::number(to, n as u64)?;
    for i in 0..heights.len() {
        if i < n {
            vector_line::number(to, heights[i])?;
        }
    }
    vector_line::end(to)
}

fn window_of(flag: usize, heights: usize) -> Window {
    if flag == 0 {
        return Window::Unnamed;
    }
    Window::Named(heights as u64)
}

fn prune<W: Write>(
    to: &mut W,
    name: &[u8],
    heights: &mut [u64],
    count: usize,
    capacity: usize,
    current: usize,
    window: Window,
) -> io::Result<()> {
    match undo::prune::prune_below_window(heights, count, capacity, current as u64, window) {
        Ok(n) => show(to, name, heights, n),
        Err(code) => vector_line::code_line(to, name, code),
    }
}

// Prunes heights: the list, the count, the capacity, the current height, whether a window is named, and the window.
pub fn pruning<W: Write>(to: &mut W, name: &[u8], s: &[u8]) -> io::Result<()> {
    let mut list = [0i64; SEGMENT_THRESHOLD];
    let part = vector_fields::numbers_at(s, 0, &mut list);
    let len = part.len;
    let count = vector_fields::size_at(s, part.next);
    let capacity = vector_fields::size_at(s, count.next);
    let current = vector_fields::size_at(s, capacity.next);
    let flag = vector_fields::size_at(s, current.next);
    let window = vector_fields::size_at(s, flag.next);
    let mut heights = heights_of(&list);
    prune(
        to,
        name,
        &mut heights[0..len],
        count.n,
        capacity.n,
        current.n,
        window_of(flag.n, window.n),
    )
}

// The milliErgs of nanoErgs.
pub fn milli_ergs<W: Write>(to: &mut W, name: &[u8], s: &[u8]) -> io::Result<()> {
    let nanos = vector_fields::number_at(s, 0);
    vector_line::start(to, name)?;
    vector_line::signed_number(to, statement::statement_milli_ergs(nanos.n))?;
    vector_line::end(to)
}

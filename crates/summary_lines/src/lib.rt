// The lines of a summary of box spills: a line made of a row's numbers, written and cleared, and a number of a line read.
#![tactic(auto)]

ghost use Rattle.std.specs.Prelude.{◌≡◌, ◌+◌, ◌*◌, ◌≤◌, ◌<◌, length, take, replicate};
ghost use Rattle.index_types.specs.Limits.{segment_threshold, summary_line};
ghost use Rattle.stores.specs.Stores.{write};
ghost use Rattle.summary_core.specs.Lines.{line_of, no_line, at_line, put_line};
ghost use Rattle.summary_lines.specs.Internal.{line_numbers};

use index_types::{SEGMENT_THRESHOLD, SUMMARY_LINE};

// A line: the first and the last absolute value of a row, and how many of its entries are above, equal to and below 0.
#[derive(Clone, Copy)]
pub struct Line {
    pub first: u64,
    pub last: u64,
    pub above: u64,
    pub zeros: u64,
    pub below: u64,
}

// The line of the first 512 numbers of a list.
pub fn line_of(numbers: &[i64]) -> Line
    requires { segment_threshold ≤ length numbers.now }
    ensures { line_numbers result ≡ line_of (take segment_threshold numbers.now) }
{
    let first = signed::magnitude(numbers[0]);
    let last = signed::magnitude(numbers[511]);
    let figures = entry_tallies::tally_entries(numbers, SEGMENT_THRESHOLD);
    Line {
        first,
        last,
        above: figures.unspent as u64,
        zeros: figures.unknown as u64,
        below: figures.spent as u64,
    }
}

// Writes a line.
pub fn put_line(summary: &mut [u64], number: usize, line: Line)
    requires { number * summary_line + summary_line ≤ length summary.old }
    ensures { summary.new ≡ put_line number (line_numbers line) summary.old }
{
    let at = number * SUMMARY_LINE;
    summary[at] = line.first;
    summary[at + 1] = line.last;
    summary[at + 2] = line.above;
    summary[at + 3] = line.zeros;
    summary[at + 4] = line.below;
}

// Sets a line to zero.
pub fn clear_line(summary: &mut [u64], number: usize)
    requires { number * summary_line + summary_line ≤ length summary.old }
    ensures { summary.new ≡ put_line number no_line summary.old }
{
    put_line(
        summary,
        number,
        Line {
            first: 0,
            last: 0,
            above: 0,
            zeros: 0,
            below: 0,
        },
    );
}

// Sets n numbers from `at` on to 0.
pub fn clear_places(summary: &mut [u64], at: usize, n: usize)
    requires { at + n ≤ length summary.old }
    ensures { summary.new ≡ write at (replicate n 0) summary.old }
{
    summary[at..at + n].fill(0);
}

// A number of a line.
pub fn number_at(summary: &[u64], number: usize, place: usize) -> u64
    requires { (place < summary_line) × (number * summary_line + summary_line ≤ length summary.now) }
    ensures { result ≡ at_line summary.now number place }
{
    let at = number * SUMMARY_LINE + place;
    summary[at]
}

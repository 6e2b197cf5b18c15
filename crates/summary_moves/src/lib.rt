// What an append and a pop of a box number with a summary do to its lines: the tests of 36, the line of a row that was made, the line of a row that was taken.
#![tactic(auto)]

ghost use Rattle.std.specs.Prelude.{◌≡◌, true, false, cond, ◌||◌, ◌+◌, ◌*◌, ◌-◌, ◌≤◌, ◌<◌, nat_abs, length};
ghost use Rattle.index_types.specs.Limits.{summary_line};
ghost use Rattle.signed.specs.Sign.{is_negative};
ghost use Rattle.summary_core.specs.Lines.{no_line, put_line};
ghost use Rattle.summary_core.specs.Moves.{too_few_lines, no_free_line};
ghost use Rattle.summary_lines.specs.Internal.{line_numbers};
ghost use Rattle.summary_moves.specs.Internal.{is_done, is_number};

use index_types::{Appended, HeadCounts, Popped, SEGMENT_THRESHOLD, SPILL_LIMIT};
use summary_lines::Line;

// Whether 36 turns an append away: the summary has fewer lines than there are spills, or the append would spill and each line has its spill.
pub fn lines_missing(counts: HeadCounts, number: i64, lines: usize) -> bool
    ensures { result ≡ (too_few_lines counts lines || no_free_line counts number lines) }
{
    let len = counts.len;
    let spills = counts.spills;
    let negative = signed::is_negative(number);
    if signed::is_negative_i32(spills) {
        return false;
    }
    let rows = signed::usize_from_i32(spills);
    if lines < rows {
        return true;
    }
    if negative {
        return false;
    }
    if len < SEGMENT_THRESHOLD {
        return false;
    }
    if SPILL_LIMIT <= rows {
        return false;
    }
    lines <= rows
}

// Whether an append was accepted.
pub fn is_done(appended: Appended) -> bool
    ensures { result ≡ is_done appended }
{
    match appended {
        Ok((_, _)) => true,
        Err(_) => false,
    }
}

// Writes the line of the row behind the newest, if the append that made the row was accepted.
pub fn put_accepted(accepted: bool, spills: i32, line: Line, summary: &mut [u64])
    requires { accepted ≡ true → (is_negative spills ≡ false) × (nat_abs spills * summary_line + summary_line ≤ length summary.old) }
    ensures { summary.new ≡ cond accepted (put_line (nat_abs spills) (line_numbers line) summary.old) summary.old }
{
    if accepted {
        summary_lines::put_line(summary, signed::usize_from_i32(spills), line);
    }
}

// Whether the summary has fewer lines than there are spills.
pub fn too_few_lines(counts: HeadCounts, lines: usize) -> bool
    ensures { result ≡ too_few_lines counts lines }
{
    let spills = counts.spills;
    if signed::is_negative_i32(spills) {
        return false;
    }
    lines < signed::usize_from_i32(spills)
}

// Whether a pop was accepted.
pub fn is_number(popped: Popped) -> bool
    ensures { result ≡ is_number popped }
{
    match popped {
        Ok((_, _, _, _)) => true,
        Err(_) => false,
    }
}

// Clears the line of the newest row, if the pop that took the row was accepted.
pub fn clear_accepted(accepted: bool, spills: i32, summary: &mut [u64])
    requires { accepted ≡ true → (is_negative spills ≡ false) × (0 < nat_abs spills) × (nat_abs spills * summary_line ≤ length summary.old) }
    ensures { summary.new ≡ cond accepted (put_line (nat_abs spills - 1) no_line summary.old) summary.old }
{
    if accepted {
        summary_lines::clear_line(summary, signed::usize_from_i32(spills) - 1);
    }
}

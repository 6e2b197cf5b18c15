// The tally with a summary, once refusal 25 has passed: the counts of the lines on top of the head's. No row is read.
#![tactic(auto)]

ghost use Rattle.std.specs.Prelude.{◌≡◌, ◌+◌, ◌*◌, ◌≤◌, ◌<◌, length, take};
ghost use Rattle.index_types.specs.Limits.{segment_threshold, summary_line};
ghost use Rattle.summary_core.specs.Tally.{add_lines, tally_lines};
ghost use Rattle.summary_tally.specs.Internal.{counts_at};

use index_types::{HeadCounts, SEGMENT_THRESHOLD, Tallied, Tally};

// The three counts of a line, or 36 if they do not add up to 512. No sum is taken, since three numbers of a line may add up to more than 64 bits hold.
fn counts_at(summary: &[u64], number: usize) -> Tallied
    requires { number * summary_line + summary_line ≤ length summary.now }
    ensures { result ≡ counts_at summary.now number }
{
    let above = summary_lines::number_at(summary, number, 2) as usize;
    let zeros = summary_lines::number_at(summary, number, 3) as usize;
    let below = summary_lines::number_at(summary, number, 4) as usize;
    if SEGMENT_THRESHOLD < above {
        return Err(refusal::SUMMARY_TOO_SHORT);
    }
    if SEGMENT_THRESHOLD - above < below {
        return Err(refusal::SUMMARY_TOO_SHORT);
    }
    if SEGMENT_THRESHOLD - above - below != zeros {
        return Err(refusal::SUMMARY_TOO_SHORT);
    }
    Ok(Tally {
        unspent: above,
        spent: below,
        unknown: zeros,
    })
}

// Adds up the lines of all spills, on top of what was counted so far.
fn add_lines(summary: &[u64], spills: usize, so_far: Tally) -> Tallied
    requires { (spills * summary_line ≤ length summary.now) × (spills < 2147483648)
        × (so_far.unspent ≤ segment_threshold) × (so_far.spent ≤ segment_threshold) × (so_far.unknown ≤ segment_threshold) }
    ensures { result ≡ add_lines summary.now 0 spills so_far }
{
    let mut t = so_far;
    for n in 0..spills {
        let line = counts_at(summary, n);
        match line {
            Ok(more) => {
                t = tally_core::plus(t, more);
            }
            Err(code) => {
                return Err(code);
            }
        }
    }
    Ok(t)
}

// 10, 11, 36, then the head's entries and the lines.
pub fn tally_lines(counts: HeadCounts, head: &[i64], lines: usize, summary: &[u64]) -> Tallied
    requires { (counts.len ≤ segment_threshold) × (segment_threshold ≤ length head.now) × (lines * summary_line ≤ length summary.now) }
    ensures { result ≡ tally_lines counts.spills (take counts.len head.now) lines summary.now }
{
    let len = counts.len;
    let spills = counts.spills;
    if !entry_order::order_ok(head, len) {
        return Err(refusal::HEAD_OUT_OF_ORDER);
    }
    if signed::is_negative_i32(spills) {
        return Err(refusal::NEGATIVE_SPILL_COUNT);
    }
    let rows = signed::usize_from_i32(spills);
    if lines < rows {
        return Err(refusal::SUMMARY_TOO_SHORT);
    }
    add_lines(summary, rows, entry_tallies::tally_entries(head, len))
}

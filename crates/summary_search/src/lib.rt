// The halving over the lines of a summary: the newest line whose first absolute value is at most the target. No row is read.
#![tactic(auto)]

ghost use Rattle.std.specs.Prelude.{◌≡◌, ◌*◌, ◌≤◌, length, Ok};
ghost use Rattle.index_types.specs.Limits.{summary_line};
ghost use Rattle.buffer_core.specs.Flip.{search_in};
ghost use Rattle.summary_core.specs.Flip.{line_lead};

// How many lines, from line 0 on, lie at or before the newest whose first absolute value is at most the target.
pub fn search(summary: &[u64], target: u64, low: usize, high: usize) -> usize
    requires { high * summary_line ≤ length summary.now }
    ensures { Ok result ≡ search_in (line_lead summary.now) target low high }
{
    if low < high {
        let middle = low + (high - low) / 2;
        let first = summary_lines::number_at(summary, middle, 0);
        if first <= target {
            search(summary, target, middle + 1, high)
        } else {
            search(summary, target, low, middle)
        }
    } else {
        low
    }
}

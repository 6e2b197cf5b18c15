// The output of the call runner: the lines of the calls made, and behind them those of the end, put into one buffer and handed to a writer.
// What a writer takes no contract says: the functions that hand bytes over ask that these are the lines.
#![tactic(auto)]

ghost use Rattle.std.specs.Prelude.{◌≡◌, ◌+◌, ◌*◌, ◌≤◌, ◌<◌, length, take};
ghost use Rattle.std.proofs.lemmas.List.Edits.{sets};
ghost use Rattle.call_lines.specs.Lines.{lines_from};
ghost use Rattle.end_lines.specs.EndLines.{end_lines};
ghost use Rattle.call_output.specs.Told.{Tells};

use call_input::Place;
use std::io::Write;

// ---- the lines of calls

// Hands the lines of n calls over, the first `end` bytes: whether all of them were taken.
fn hand_lines<W: Write>(
    to: &mut W,
    first: u64,
    answers: &[u8],
    popped: &[i64],
    n: usize,
    out: &[u8],
    end: usize,
) -> bool
    requires { (end ≤ length out.now) × (take end out.now ≡ lines_from first answers.now popped.now 0 «n») }
{
    to.write_all(&out[..end]).is_ok()
}

// Prints the lines of n calls: whether all of them were written.
fn print_lines<W: Write>(
    to: &mut W,
    first: u64,
    answers: &[u8],
    popped: &[i64],
    n: usize,
    out: &mut [u8],
) -> bool
    requires { («n» * 2 ≤ length answers.now) × («n» ≤ length popped.now) × («n» * 64 ≤ length out.old) × (first + «n» < 18446744073709551616) }
    ensures { out.new ≡ sets out.old 0 (lines_from first answers.now popped.now 0 «n») }
{
    let end = call_lines::put_lines(first, answers, popped, n, out);
    hand_lines(to, first, answers, popped, n, out, end)
}

// Prints the lines of the n calls that were made from this place on, of so many bytes, and says where the session stands then.
pub fn tell_calls<W: Write>(
    to: &mut W,
    p: Place,
    bytes: usize,
    n: usize,
    end: u8,
    answers: &[u8],
    popped: &[i64],
    out: &mut [u8],
) -> Place
    requires { (p.at + bytes ≤ p.have) × («n» * 2 ≤ length answers.now) × («n» ≤ length popped.now) × («n» * 64 ≤ length out.old) × (p.made + 1 + «n» < 18446744073709551616) }
    ensures { Tells p bytes «n» end answers.now popped.now out.old result out.new }
{
    let first = p.made + 1;
    let written = print_lines(to, first, answers, popped, n, out);
    call_input::behind_calls(p, bytes, n, end, written)
}

// ---- the lines of the end

// Hands the lines of the end over, the first `end` bytes: whether all of them were taken.
fn hand_end<W: Write>(
    to: &mut W,
    ordinal: u64,
    code: u8,
    numbers: &[i64],
    lengths: &[usize],
    spills: &[i32],
    out: &[u8],
    end: usize,
) -> bool
    requires { (end ≤ length out.now) × (take end out.now ≡ end_lines ordinal code numbers.now lengths.now spills.now) }
{
    to.write_all(&out[..end]).is_ok()
}

// Prints what stands behind the calls' lines: whether all was written.
pub fn print_end<W: Write>(
    to: &mut W,
    ordinal: u64,
    code: u8,
    numbers: &[i64],
    lengths: &[usize],
    spills: &[i32],
    out: &mut [u8],
) -> bool
    requires { (length numbers.now ≡ 2306) × (length lengths.now ≡ 6) × (length spills.now ≡ 4) × (384 ≤ length out.old) }
    ensures { out.new ≡ sets out.old 0 (end_lines ordinal code numbers.now lengths.now spills.now) }
{
    let end = end_lines::put_end(ordinal, code, numbers, lengths, spills, out);
    hand_end(to, ordinal, code, numbers, lengths, spills, out, end)
}

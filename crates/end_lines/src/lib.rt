// The lines behind those of the calls: the refusal where the input ends with no call, and a line for each parent, put into a buffer.
#![tactic(auto)]

ghost use Rattle.std.specs.Prelude.{◌≡◌, ◌+◌, ◌≤◌, ◌<◌, length};
ghost use Rattle.stores.specs.Stores.{Put};
ghost use Rattle.end_lines.specs.EndLines.{refusal_part, parent_part, end_lines};

use call_steps::{NANOS_AT, PARENT_NUMBERS};

// Writes the refusal that stands behind the calls made, where the code is not 0.
fn put_refusal(ordinal: u64, code: u8, out: &mut [u8]) -> usize
    requires { 64 ≤ length out.old }
    ensures { Put (refusal_part ordinal code) out.old 0 result out.new }
{
    if code == 0 {
        return 0;
    }
    call_lines::put_line(ordinal, code, false, 0, out, 0)
}

// Writes a parent's line.
fn put_parent(
    p: usize,
    numbers: &[i64],
    lengths: &[usize],
    spills: &[i32],
    out: &mut [u8],
    at: usize,
) -> usize
    requires { (p < 2) × (length numbers.now ≡ 2306) × (length lengths.now ≡ 6) × (length spills.now ≡ 4) × (at + 160 ≤ length out.old) }
    ensures { Put (parent_part p numbers.now lengths.now spills.now) out.old at result out.new }
{
    let boxes = p * 3;
    let txs = p * 3 + 1;
    let tokens = p * 3 + 2;
    let box_spills = p * 2;
    let tx_spills = p * 2 + 1;
    let nanos = p * PARENT_NUMBERS + NANOS_AT;
    parent_lines::put_parent_line(
        p,
        lengths[boxes],
        spills[box_spills],
        lengths[txs],
        spills[tx_spills],
        numbers[nanos],
        lengths[tokens],
        out,
        at,
    )
}

// Writes what stands behind the calls' lines.
pub fn put_end(
    ordinal: u64,
    code: u8,
    numbers: &[i64],
    lengths: &[usize],
    spills: &[i32],
    out: &mut [u8],
) -> usize
    requires { (length numbers.now ≡ 2306) × (length lengths.now ≡ 6) × (length spills.now ≡ 4) × (384 ≤ length out.old) }
    ensures { Put (end_lines ordinal code numbers.now lengths.now spills.now) out.old 0 result out.new }
{
    let after_refusal = put_refusal(ordinal, code, out);
    let after_first = put_parent(0, numbers, lengths, spills, out, after_refusal);
    put_parent(1, numbers, lengths, spills, out, after_first)
}

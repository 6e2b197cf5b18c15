// The lines that the call runner prints of its calls, written into borrowed bytes: each writer answers the position behind what it wrote.
#![tactic(auto)]

ghost use Rattle.std.specs.Prelude.{◌+◌, ◌*◌, ◌<◌, ◌≤◌, length};
ghost use Rattle.stores.specs.Stores.{Put};
ghost use Rattle.call_lines.specs.Lines.{popped_part, line, lines_from};

const LINE_END: u8 = 10;

// Writes a popped number, where there is one.
fn put_popped(popped: bool, number: i64, out: &mut [u8], at: usize) -> usize
    requires { at + 22 ≤ length out.old }
    ensures { Put (popped_part popped number) out.old at result out.new × (result ≤ at + 22) }
{
    if popped {
        return line_parts::put_spaced_number(number, out, at);
    }
    at
}

// Writes a call's line: its ordinal, the refusal or 0, and a popped number.
pub fn put_line(
    ordinal: u64,
    code: u8,
    popped: bool,
    number: i64,
    out: &mut [u8],
    at: usize,
) -> usize
    requires { at + 64 ≤ length out.old }
    ensures { Put (line ordinal code popped number) out.old at result out.new }
{
    let after_ordinal = text::put_decimal(ordinal, out, at);
    let after_code = line_parts::put_spaced(code as u64, out, after_ordinal);
    let after_number = put_popped(popped, number, out, after_code);
    stores::put_byte(LINE_END, out, after_number)
}

// Writes the lines of n answers, from the ordinal `first` on. An answer is two bytes, its code and whether it popped a number, and the number.
pub fn put_lines(first: u64, answers: &[u8], numbers: &[i64], n: usize, out: &mut [u8]) -> usize
    requires { («n» * 2 ≤ length answers.now) × («n» ≤ length numbers.now) × («n» * 64 ≤ length out.old) × (first + «n» < 18446744073709551616) }
    ensures { Put (lines_from first answers.now numbers.now 0 «n») out.old 0 result out.new }
{
    let mut at = 0;
    for (i, number) in numbers[..n].iter().enumerate() {
        let code_at = i * 2;
        let popped_at = code_at + 1;
        let ordinal = first + (i as u64);
        let popped = answers[popped_at] == 1;
        at = put_line(ordinal, answers[code_at], popped, *number, out, at);
    }
    at
}

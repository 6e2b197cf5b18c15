// Makes the calls that an input holds (document 01, "Call runner") and prints a line for each, then a line for each parent.
// The input passes through one buffer, the answers of at most 1,024 calls and their lines through others, so that memory stays constant whatever
// the input's length. A read or a write that fails ends the program with a message to standard error, and then no parent's line is printed: an output
// is whole where it ends with the parents' lines. (The exit status is 0 then too.)
#![tactic(auto)]

ghost use Rattle.std.specs.Prelude.{◌≡◌, ◌+◌, ◌≤◌, ◌<◌, length};
ghost use Rattle.std.proofs.lemmas.List.Edits.{sets};
ghost use Rattle.buffer_core.specs.Edition.{edition_1};
ghost use Rattle.call_steps.specs.State.{state};
ghost use Rattle.call_steps.specs.Steps.{lists_with};
ghost use Rattle.runner_start.specs.Start.{lists_empty};
ghost use Rattle.runner.specs.Run.{run as runner-at, run_of};
ghost use Rattle.call_input.specs.Place.{at_start};
ghost use Rattle.call_input.specs.Waiting.{waiting, Fed};
ghost use Rattle.end_lines.specs.EndLines.{end_lines};
ghost use Rattle.call_runs.specs.Delivered.{Told};
ghost use Rattle.call_session.specs.Session.{Makes, Keeps, Ends};

use call_input::{Next, Place};
use index_types::SpillCounts;
use runner::Progress;
use runner_start::{
    ALL_IDS, ALL_LENGTHS, ALL_NUMBERS, ALL_SPILLS, DELETED_BYTES, STAGED_BYTES, TABLE_BYTES,
};
use std::io::{Read, Write};

// The counts of the lists, and where the session stands in its input.
#[derive(Clone, Copy)]
struct Session {
    counts: SpillCounts,
    place: Place,
}

fn start() -> Session
    ensures { (result.counts ≡ lists_empty) × (result.place ≡ at_start) }
{
    let counts = runner_start::empty_lists();
    let place = call_input::start();
    Session { counts, place }
}

// ---- calls

// Makes the calls that stand in the input from `at` to `have`, as many as have room for their answers.
fn make_calls(
    input: &[u8],
    at: usize,
    have: usize,
    ids: &mut [u8],
    numbers: &mut [i64],
    lengths: &mut [usize],
    spills: &mut [i32],
    staged: &mut [u8],
    table: &mut [u8],
    deleted: &mut [u8],
    answers: &mut [u8],
    popped: &mut [i64],
    counts: SpillCounts,
) -> Progress
    requires { (at ≤ have) × (have ≤ length input.now) × (length popped.old ≡ 1024) }
    ensures { (at + result.at ≤ have) × (result.made ≤ 1024)
        × (runner-at result ids.new numbers.new lengths.new spills.new staged.new table.new deleted.new answers.new popped.new
        ≡ run_of edition_1 2 (waiting at have input.now) (state ids.old numbers.old lengths.old spills.old (lists_with counts staged.old table.old deleted.old)) answers.old popped.old) }
{
    runner::run_calls(
        &input[at..have],
        2,
        ids,
        numbers,
        lengths,
        spills,
        staged,
        table,
        deleted,
        answers,
        popped,
        counts,
    )
}

// Makes calls of the input's buffer and prints their lines.
fn run<W: Write>(
    to: &mut W,
    input: &[u8],
    ids: &mut [u8],
    numbers: &mut [i64],
    lengths: &mut [usize],
    spills: &mut [i32],
    staged: &mut [u8],
    table: &mut [u8],
    deleted: &mut [u8],
    answers: &mut [u8],
    popped: &mut [i64],
    out: &mut [u8],
    s: Session,
) -> Session
    requires { (s.place.at ≤ s.place.have) × (s.place.have ≤ length input.now) × (s.place.made < 9223372036854775808)
        × (length popped.old ≡ 1024) × (length answers.old ≡ 2048) × (length out.old ≡ 65536) × (length input.now ≡ 65536) }
    ensures { Makes input.now s.place (state ids.old numbers.old lengths.old spills.old (lists_with s.counts staged.old table.old deleted.old))
        out.old result.place (state ids.new numbers.new lengths.new spills.new (lists_with result.counts staged.new table.new deleted.new)) out.new }
{
    let place = s.place;
    let at = place.at;
    let have = place.have;
    let counts = s.counts;
    let p = make_calls(
        input, at, have, ids, numbers, lengths, spills, staged, table, deleted, answers, popped,
        counts,
    );
    let counts_after = p.counts;
    let bytes = p.at;
    let n = p.made;
    let end = p.end;
    let place_after = call_output::tell_calls(to, place, bytes, n, end, answers, popped, out);
    Session {
        counts: counts_after,
        place: place_after,
    }
}

// ---- the end

fn say<E: Eprint>(errors: &E, message: &str) {
    let _ = errors.eprintln(message);
}

// Prints what stands behind the calls' lines: the state must be what all calls of the input leave.
fn print_end<W: Write>(
    to: &mut W,
    made: u64,
    code: u8,
    numbers: &[i64],
    lengths: &[usize],
    spills: &[i32],
    out: &mut [u8],
) -> bool
    requires { (length numbers.now ≡ 2306) × (length lengths.now ≡ 6) × (length spills.now ≡ 4) × (384 ≤ length out.old) × (made ≤ 9223372036854775808)
        × Told numbers.now lengths.now spills.now made code }
    ensures { out.new ≡ sets out.old 0 (end_lines (made + 1) code numbers.now lengths.now spills.now) }
{
    let ordinal = made + 1;
    call_output::print_end(to, ordinal, code, numbers, lengths, spills, out)
}

fn say_write_failed<E: Eprint>(errors: &E) {
    say(
        errors,
        "call_runner: standard output cannot be written: the lines end early",
    );
}

// Prints the lines of the end where the session has come to it, and else says why there are none.
fn finish<W: Write, E: Eprint>(
    to: &mut W,
    errors: &E,
    numbers: &[i64; ALL_NUMBERS],
    lengths: &[usize; ALL_LENGTHS],
    spills: &[i32; ALL_SPILLS],
    out: &mut [u8; 65536],
    p: Place,
)
    requires { (p.made ≤ 9223372036854775808) × Ends numbers.now lengths.now spills.now p }
{
    let made = p.made;
    let next = p.next;
    match next {
        Next::End(code) => {
            if !print_end(to, made, code, numbers, lengths, spills, out) {
                say_write_failed(errors);
            }
        }
        Next::WriteFailed => {
            say_write_failed(errors);
        }
        Next::ReadFailed => {
            say(
                errors,
                "call_runner: standard input cannot be read: the lines end early",
            );
        }
        Next::Run => {
            say(errors, "call_runner: the input is too long");
        }
        Next::Read(_) => {
            say(errors, "call_runner: the input is too long");
        }
    }
}

// ---- the session

fn read<R: Read>(source: &mut R, input: &mut [u8], s: Session, code: u8) -> Session
    requires { (s.place.at ≤ s.place.have) × (s.place.have ≤ length input.old) }
    ensures { (result.counts ≡ s.counts) × Fed s.place.at s.place.have s.place.made code input.old result.place input.new }
{
    let counts = s.counts;
    let place = s.place;
    let place_after = call_input::read(source, input, place, code);
    Session {
        counts,
        place: place_after,
    }
}

// Makes calls or reads, as the session asks.
fn turn<R: Read, W: Write>(
    source: &mut R,
    to: &mut W,
    input: &mut [u8; 65536],
    ids: &mut [u8; ALL_IDS],
    numbers: &mut [i64; ALL_NUMBERS],
    lengths: &mut [usize; ALL_LENGTHS],
    spills: &mut [i32; ALL_SPILLS],
    staged: &mut [u8; STAGED_BYTES],
    table: &mut [u8; TABLE_BYTES],
    deleted: &mut [u8; DELETED_BYTES],
    answers: &mut [u8; 2048],
    popped: &mut [i64; 1024],
    out: &mut [u8; 65536],
    s: Session,
) -> Session
    requires { (s.place.at ≤ s.place.have) × (s.place.have ≤ 65536) × (s.place.made < 9223372036854775808) }
    ensures { (result.place.at ≤ result.place.have) × (result.place.have ≤ 65536) × (result.place.made ≤ s.place.made + 1024)
        × Keeps input.old s.place (state ids.old numbers.old lengths.old spills.old (lists_with s.counts staged.old table.old deleted.old))
        input.new result.place (state ids.new numbers.new lengths.new spills.new (lists_with result.counts staged.new table.new deleted.new)) }
{
    let place = s.place;
    let next = place.next;
    match next {
        Next::Run => run(
            to, input, ids, numbers, lengths, spills, staged, table, deleted, answers, popped, out,
            s,
        ),
        Next::Read(code) => read(source, input, s, code),
        Next::End(_) => s,
        Next::ReadFailed => s,
        Next::WriteFailed => s,
    }
}

// Makes the calls of the input. A turn makes at most 1,024 calls: 2^53 turns keep the ordinals below 2^63.
pub fn make_calls_of_input<R: Read, W: Write, E: Eprint>(source: &mut R, to: &mut W, errors: &E) {
    let mut input = [0u8; 65536];
    let mut out = [0u8; 65536];
    let mut ids = runner_start::parent_ids();
    let mut numbers = [0i64; ALL_NUMBERS];
    let mut lengths = [0usize; ALL_LENGTHS];
    let mut spills = [0i32; ALL_SPILLS];
    let mut staged = [0u8; STAGED_BYTES];
    let mut table = [0u8; TABLE_BYTES];
    let mut deleted = [0u8; DELETED_BYTES];
    let mut answers = [0u8; 2048];
    let mut popped = [0i64; 1024];
    let mut s = start();
    for _ in 0..9007199254740992_u64 {
        s = turn(
            source,
            to,
            &mut input,
            &mut ids,
            &mut numbers,
            &mut lengths,
            &mut spills,
            &mut staged,
            &mut table,
            &mut deleted,
            &mut answers,
            &mut popped,
            &mut out,
            s,
        );
        let place = s.place;
        let next = place.next;
        if !call_input::goes_on(next) {
            break;
        }
    }
    let place = s.place;
    finish(to, errors, &numbers, &lengths, &spills, &mut out, place);
}

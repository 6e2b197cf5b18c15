// Runs the calls that an input holds, over borrowed state for any number of parents: refusal 25 is tested once, then each call is made by its core function.
#![tactic(auto)]

ghost use Rattle.std.specs.Prelude.{◌≡◌, ◌+◌, ◌*◌, ◌<◌, length};
ghost use Rattle.buffer_core.specs.Edition.{edition_1};
ghost use Rattle.call_steps.specs.State.{Ready, state};
ghost use Rattle.call_steps.specs.Steps.{lists_with};
ghost use Rattle.runner.specs.Run.{run, start, TurnReady, turn_of, runs, run_of};

use calls::Call;
use index_types::SpillCounts;

mod noted;

pub use run_checks::state_ok;

// How far the calls have come: the counts of the lists, the next byte of the input, the calls made, and how reading ended: 0 not yet, the answers have no
// more room; 1 at the end of the input, also where the answers are just full; 2 inside a call; else the refusal: 31 at what is no call, 25 where the state was
// refused and no call made.
#[derive(Clone, Copy)]
pub struct Progress {
    pub counts: SpillCounts,
    pub at: usize,
    pub made: usize,
    pub end: u8,
}

// ---- the calls of an input

// The call at the next byte is made and answered; where there is none, how reading ended is noted.
fn turn(
    input: &[u8],
    parents: usize,
    ids: &mut [u8],
    numbers: &mut [i64],
    lengths: &mut [usize],
    spills: &mut [i32],
    staged: &mut [u8],
    table: &mut [u8],
    deleted: &mut [u8],
    answers: &mut [u8],
    popped: &mut [i64],
    hints: &mut [u16],
    p: Progress,
) -> Progress
    requires { TurnReady parents input.now (run p ids.old numbers.old lengths.old spills.old staged.old table.old deleted.old answers.old popped.old) }
    ensures { run result ids.new numbers.new lengths.new spills.new staged.new table.new deleted.new answers.new popped.new
        ≡ turn_of edition_1 parents input.now (run p ids.old numbers.old lengths.old spills.old staged.old table.old deleted.old answers.old popped.old) }
{
    let counts = p.counts;
    let at = p.at;
    let made = p.made;
    let count = made + 1;
    let call = calls::next_call(input, at, parents);
    let n = calls::size_of(call);
    if n == 0 {
        let end = calls::end_of(call);
        return Progress {
            counts,
            at,
            made,
            end,
        };
    }
    let next = at + n;
    let s = run_steps::step(
        call, ids, numbers, lengths, spills, staged, table, deleted, hints, counts,
    );
    let said = s.said;
    let after = s.counts;
    run_answers::put_answer(said, made, answers, popped);
    Progress {
        counts: after,
        at: next,
        made: count,
        end: 0,
    }
}

// The calls from the front of the input, until none stands there or the answers have no room.
fn run_ready(
    input: &[u8],
    parents: usize,
    ids: &mut [u8],
    numbers: &mut [i64],
    lengths: &mut [usize],
    spills: &mut [i32],
    staged: &mut [u8],
    table: &mut [u8],
    deleted: &mut [u8],
    answers: &mut [u8],
    popped: &mut [i64],
    hints: &mut [u16],
    counts: SpillCounts,
) -> Progress
    requires { Ready parents (state ids.old numbers.old lengths.old spills.old (lists_with counts staged.old table.old deleted.old)) }
    ensures { run result ids.new numbers.new lengths.new spills.new staged.new table.new deleted.new answers.new popped.new
        ≡ runs edition_1 parents input.now (length input.now + 1) (start (state ids.old numbers.old lengths.old spills.old (lists_with counts staged.old table.old deleted.old)) answers.old popped.old) }
{
    let mut p = Progress {
        counts,
        at: 0,
        made: 0,
        end: 0,
    };
    for _ in 0..=input.len() {
        let made = p.made;
        let end = p.end;
        if !run_answers::may_go(answers, popped, made, end) {
            return p;
        }
        p = turn(
            input, parents, ids, numbers, lengths, spills, staged, table, deleted, answers, popped,
            hints, p,
        );
    }
    p
}

// The calls of an input over the state of all parents: refusal 25 is tested once, then each call is made as the single functions define it. Answer i is the
// refusal or 0 at `answers[2 * i]`, 1 behind it where a number was popped, and that number at `popped[i]`.
pub fn run_calls(
    input: &[u8],
    parents: usize,
    ids: &mut [u8],
    numbers: &mut [i64],
    lengths: &mut [usize],
    spills: &mut [i32],
    staged: &mut [u8],
    table: &mut [u8],
    deleted: &mut [u8],
    answers: &mut [u8],
    popped: &mut [i64],
    counts: SpillCounts,
) -> Progress
    ensures { run result ids.new numbers.new lengths.new spills.new staged.new table.new deleted.new answers.new popped.new
        ≡ run_of edition_1 parents input.now (state ids.old numbers.old lengths.old spills.old (lists_with counts staged.old table.old deleted.old)) answers.old popped.old }
{
    if run_checks::state_ok(
        parents, ids, numbers, lengths, spills, staged, table, deleted, counts,
    ) {
        let p = noted::run_noted(
            input, parents, ids, numbers, lengths, spills, staged, table, deleted, answers, popped,
            counts,
        );
        let counts_after = p.counts;
        let at = p.at;
        let made = p.made;
        let end = run_answers::end_at(input, at, p.end);
        return Progress {
            counts: counts_after,
            at,
            made,
            end,
        };
    }
    Progress {
        counts,
        at: 0,
        made: 0,
        end: refusal::BUFFERS,
    }
}

// What the runner writes between calls: an answer in its places, whether another has room, and how reading ended.
#![tactic(auto)]

ghost use Rattle.std.specs.Prelude.{◌≡◌, ◌+◌, ◌*◌, ◌≤◌, ◌<◌, length};
ghost use Rattle.call_steps.specs.Steps.{refused, stepped};
ghost use Rattle.run_answers.specs.Answers.{flag, with_code, with_number, has_room, end_at};

use call_steps::{Said, Stepped};
use index_types::SpillCounts;

// What no call says.
pub fn no_call(counts: SpillCounts) -> Stepped
    ensures { result ≡ stepped (refused 31) counts }
{
    Stepped {
        said: Said {
            code: refusal::UNKNOWN_CALL,
            popped: false,
            number: 0,
        },
        counts,
    }
}

fn flag(popped: bool) -> u8
    ensures { result ≡ flag popped }
{
    if popped { 1 } else { 0 }
}

// The answer of call i takes its places.
pub fn put_answer(said: Said, i: usize, answers: &mut [u8], popped: &mut [i64])
    requires { (i * 2 + 2 ≤ length answers.old) × (i < length popped.old) }
    ensures { (answers.new ≡ with_code said i answers.old) × (popped.new ≡ with_number said i popped.old) }
{
    let code = said.code;
    let number = said.number;
    let marked = flag(said.popped);
    let a = i * 2;
    let b = i * 2 + 1;
    answers[a] = code;
    answers[b] = marked;
    popped[i] = number;
}

// Whether reading has not ended and another answer has room.
pub fn may_go(answers: &[u8], popped: &[i64], made: usize, end: u8) -> bool
    ensures { result ≡ has_room made end answers.now popped.now }
{
    if end == 0 {
        if made < popped.len() {
            return made * 2 + 2 <= answers.len();
        }
    }
    false
}

// How reading ended: at the very end of the input that is said even where the answers are just full.
pub fn end_at(input: &[u8], at: usize, end: u8) -> u8
    ensures { result ≡ end_at (length input.now) at end }
{
    if end == 0 {
        if input.len() <= at {
            return 1;
        }
    }
    end
}

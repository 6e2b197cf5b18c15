// The drift rule on a flip's code, and the figure of a statement.
#![tactic(auto)]

ghost use Rattle.std.specs.Prelude.{◌≡◌};
ghost use Rattle.refusal.specs.Refusal.{tolerated};
ghost use Rattle.statement.specs.Statement.{milli_ergs};
ghost use Rattle.ergo_index_answers.specs.Answers.{answer_of, drift_out, drift_export};

use refusal::{Answer, Tolerated};

// The answer of a code.
fn answer_of(code: u8) -> Answer
    ensures { result ≡ answer_of code }
{
    if code == 0 { Ok(()) } else { Err(code) }
}

// A flip whose code is 15 is skipped, which is no refusal; any other code passes.
#[unsafe(no_mangle)]
pub extern "C" fn ergo_index_tolerate_secondary_drift(flip: u8, skipped: &mut bool) -> u8
    ensures { drift_out result skipped.new ≡ drift_export skipped.old (tolerated (answer_of flip)) }
{
    let answer = answer_of(flip);
    let kept = refusal::tolerate_secondary_drift(answer);
    match kept {
        Tolerated::Flipped => {
            *skipped = false;
            0
        }
        Tolerated::Skipped => {
            *skipped = true;
            0
        }
        Tolerated::Refused(code) => code,
    }
}

// MilliErgs of an amount of nanoErgs, rounded to the nearest, the half upward.
#[unsafe(no_mangle)]
pub extern "C" fn ergo_index_statement_milli_ergs(nano_ergs: i64) -> i64
    ensures { result ≡ milli_ergs nano_ergs }
{
    statement::statement_milli_ergs(nano_ergs)
}

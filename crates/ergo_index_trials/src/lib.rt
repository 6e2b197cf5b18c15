// Trying staging sizes with made-up forks.
#![tactic(auto)]

ghost use Rattle.std.specs.Prelude.{◌≡◌};
ghost use Rattle.ergo_index_trials.specs.Trials.{trial_out, trial_by, TriesOut};

use index_types::TriedForks;

// The figures go to the outs, and the code is the result; a refusal sets no out.
fn told(tried: TriedForks, most_staged: &mut usize, most_deleted: &mut usize) -> u8
    ensures { trial_out result most_staged.new most_deleted.new ≡ trial_by tried most_staged.old most_deleted.old }
{
    match tried {
        Ok((staged, deleted)) => {
            *most_staged = staged;
            *most_deleted = deleted;
            0
        }
        Err(code) => code,
    }
}

// The largest number of staged rows and of deleted keys at any one time, over blocks of generated calls and forks. The four buffers are zeroed to their
// capacities, refused or not, unless the refusal is 25 or 38.
#[unsafe(no_mangle)]
pub extern "C" fn ergo_index_try_forks(
    state: u64,
    steps: &[i32],
    table_capacity: usize,
    table: &mut [u8],
    staged_capacity: usize,
    staged: &mut [u8],
    deleted_capacity: usize,
    deleted: &mut [u8],
    standing_capacity: usize,
    standing: &mut [i64],
    most_staged: &mut usize,
    most_deleted: &mut usize,
) -> u8
    ensures { TriesOut state table_capacity staged_capacity deleted_capacity standing_capacity steps.now table.old staged.old deleted.old standing.old
        most_staged.old most_deleted.old
        result most_staged.new most_deleted.new table.new staged.new deleted.new standing.new }
{
    let tried = fork_trials::try_forks(
        state,
        steps,
        table_capacity,
        table,
        staged_capacity,
        staged,
        deleted_capacity,
        deleted,
        standing_capacity,
        standing,
    );
    told(tried, most_staged, most_deleted)
}

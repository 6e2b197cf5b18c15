// Trying staging sizes with made-up forks (document 02, U12): how many staged rows and deleted keys a run of generated blocks and forks needs at any one time.
#![tactic(auto)]

ghost use Rattle.std.specs.Prelude.{◌≡◌};
ghost use Rattle.trial_core.specs.Trial.{figures, run_of};
ghost use Rattle.fork_trials.specs.Tries.{Tries};
ghost use Rattle.fork_trials.specs.Internal.{Zeroed, Sized, RunsSized, start_run, told};

use index_types::{ListCounts, SpillCounts, TriedForks};
use load_core::Source;
use standing_calls::{Side, TrialState};
use trial_runs::TrialRun;

// Where a trial starts.
fn start_run(
    x: u64,
    table_capacity: usize,
    staged_capacity: usize,
    deleted_capacity: usize,
) -> TrialRun
    ensures { result ≡ start_run x table_capacity staged_capacity deleted_capacity }
{
    let staged = ListCounts {
        count: 0,
        capacity: staged_capacity,
    };
    let table = ListCounts {
        count: 0,
        capacity: table_capacity,
    };
    let deleted = ListCounts {
        count: 0,
        capacity: deleted_capacity,
    };
    TrialRun {
        source: Source {
            state: x,
            boxes: 0,
            txs: 0,
        },
        state: TrialState {
            counts: SpillCounts {
                staged,
                table,
                deleted,
            },
            side: Side::Neither,
            stood: 0,
            staged: 0,
            deleted: 0,
            end: 0,
        },
        blocks: 0,
    }
}

// The two figures, or the number that ended the trial.
fn told(t: TrialState) -> TriedForks
    ensures { result ≡ told t }
{
    let end = t.end;
    if end == 0 {
        return Ok((t.staged, t.deleted));
    }
    Err(end)
}

// The run, over working buffers that are zero.
fn run_zeroed(
    x: u64,
    steps: &[i32],
    table_capacity: usize,
    staged_capacity: usize,
    deleted_capacity: usize,
    room: usize,
    table: &mut [u8],
    staged: &mut [u8],
    deleted: &mut [u8],
    standing: &mut [i64],
) -> TriedForks
    requires { Zeroed table_capacity staged_capacity deleted_capacity room steps.now table.old staged.old deleted.old standing.old }
    ensures { result ≡ figures (run_of x steps.now table_capacity staged_capacity deleted_capacity room) }
{
    let mut ids = [0u8; 4128];
    let mut numbers = [0i64; 1153];
    let mut lengths = [0usize; 3];
    let mut spills = [0i32; 2];
    let mut hints = [0u16; 1];
    let start = start_run(x, table_capacity, staged_capacity, deleted_capacity);
    let run = trial_runs::run_trial(
        steps,
        room,
        &mut ids,
        &mut numbers,
        &mut lengths,
        &mut spills,
        staged,
        table,
        deleted,
        &mut hints[..0],
        standing,
        start,
    );
    let state = run.state;
    told(state)
}

// The run, over working buffers of just their capacities, which are zero before it and after it.
fn run_sized(
    x: u64,
    steps: &[i32],
    table_capacity: usize,
    staged_capacity: usize,
    deleted_capacity: usize,
    room: usize,
    table: &mut [u8],
    staged: &mut [u8],
    deleted: &mut [u8],
    standing: &mut [i64],
) -> TriedForks
    requires { Sized table_capacity staged_capacity deleted_capacity room steps.now table.old staged.old deleted.old standing.old }
    ensures { RunsSized x table_capacity staged_capacity deleted_capacity room steps.now result table.new staged.new deleted.new standing.new }
{
    trial_buffers::zero_all(table, staged, deleted, standing);
    let r = run_zeroed(
        x,
        steps,
        table_capacity,
        staged_capacity,
        deleted_capacity,
        room,
        table,
        staged,
        deleted,
        standing,
    );
    trial_buffers::zero_all(table, staged, deleted, standing);
    r
}

// Tries staging sizes: n for a block of n generated calls, -d for a fork of d blocks. Once 25 and 38 are tested the working buffers are zeroed to their
// capacities, and again at the end.
pub fn try_forks(
    state: u64,
    steps: &[i32],
    table_capacity: usize,
    table: &mut [u8],
    staged_capacity: usize,
    staged: &mut [u8],
    deleted_capacity: usize,
    deleted: &mut [u8],
    standing_capacity: usize,
    standing: &mut [i64],
) -> TriedForks
    ensures { Tries state table_capacity staged_capacity deleted_capacity standing_capacity steps.now table.old staged.old deleted.old standing.old
        result table.new staged.new deleted.new standing.new }
{
    let code = trial_buffers::refused(
        state,
        steps.len(),
        table_capacity,
        table.len(),
        staged_capacity,
        staged.len(),
        deleted_capacity,
        deleted.len(),
        standing_capacity,
        standing.len(),
    );
    if code == 0 {
        let t = table_capacity * buffer_core::RECORD;
        let s = staged_capacity * buffer_core::RECORD;
        let d = deleted_capacity * trial_buffers::KEY;
        let n = standing_capacity * trial_core::STOOD;
        return run_sized(
            state,
            steps,
            table_capacity,
            staged_capacity,
            deleted_capacity,
            standing_capacity,
            &mut table[..t],
            &mut staged[..s],
            &mut deleted[..d],
            &mut standing[..n],
        );
    }
    Err(code)
}

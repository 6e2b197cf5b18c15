// The blocks and forks of a trial of staging sizes (document 02, U12), once 25 and 38 are tested and the working buffers are zero.
#![tactic(auto)]

ghost use Rattle.std.specs.Prelude.{◌≡◌, false, nat_abs, length};
ghost use Rattle.signed.specs.Sign.{is_negative};
ghost use Rattle.call_steps.specs.State.{state};
ghost use Rattle.call_steps.specs.Steps.{lists_with};
ghost use Rattle.trial_steps.specs.Held.{held};
ghost use Rattle.trial_runs.specs.Runs.{BlockReady, BlockBy, ForkReady, ForkBy, TurnReady, TurnBy, ended_by, RunReady, RunBy};

use load_core::Source;
use standing_calls::TrialState;

// Where a trial stands, and the generator.
#[derive(Clone, Copy)]
pub struct Drawing {
    pub source: Source,
    pub state: TrialState,
}

// The same with the number of blocks that stand.
#[derive(Clone, Copy)]
pub struct TrialRun {
    pub source: Source,
    pub state: TrialState,
    pub blocks: u64,
}

// A block of n drawn calls, until one ends the trial.
fn block(
    n: u64,
    room: usize,
    number: u64,
    ids: &mut [u8],
    numbers: &mut [i64],
    lengths: &mut [usize],
    spills: &mut [i32],
    staged: &mut [u8],
    table: &mut [u8],
    deleted: &mut [u8],
    hints: &mut [u16],
    standing: &mut [i64],
    g: Source,
    t: TrialState,
) -> Drawing
    requires { BlockReady n room number g t.stood t.end standing.old (state ids.old numbers.old lengths.old spills.old (lists_with t.counts staged.old table.old deleted.old)) }
    ensures { BlockBy n room number g (held t ids.old numbers.old lengths.old spills.old staged.old table.old deleted.old) standing.old
        result.source (held result.state ids.new numbers.new lengths.new spills.new staged.new table.new deleted.new) standing.new }
{
    let mut source = g;
    let mut state = t;
    for _ in 0..n {
        let d = load_core::next_call(source);
        let call = d.call;
        let next = d.next;
        state = trial_steps::make(
            call, room, number, ids, numbers, lengths, spills, staged, table, deleted, hints,
            standing, state,
        );
        source = next;
        if state.end != 0 {
            return Drawing { source, state };
        }
    }
    Drawing { source, state }
}

// Undoes the standing calls of the blocks from a number on, the newest first, until an undo is refused.
fn fork(
    lowest: u64,
    ids: &mut [u8],
    numbers: &mut [i64],
    lengths: &mut [usize],
    spills: &mut [i32],
    staged: &mut [u8],
    table: &mut [u8],
    deleted: &mut [u8],
    hints: &mut [u16],
    standing: &[i64],
    t: TrialState,
) -> TrialState
    requires { ForkReady t.stood t.end standing.now (state ids.old numbers.old lengths.old spills.old (lists_with t.counts staged.old table.old deleted.old)) }
    ensures { ForkBy lowest (held t ids.old numbers.old lengths.old spills.old staged.old table.old deleted.old) standing.now (held result ids.new numbers.new lengths.new spills.new staged.new table.new deleted.new) }
{
    let mut state = t;
    let mut left = t.stood;
    while 0 < left {
        left -= 1;
        let earlier = standing_calls::is_earlier(standing, left, lowest);
        if earlier {
            return state;
        }
        state = trial_steps::undo_newest(
            ids, numbers, lengths, spills, staged, table, deleted, hints, standing, state,
        );
        if state.end != 0 {
            return state;
        }
    }
    state
}

fn ended_by(code: u8, t: TrialState) -> TrialState
    ensures { result ≡ ended_by code t }
{
    let counts = t.counts;
    let side = t.side;
    TrialState {
        counts,
        side,
        stood: t.stood,
        staged: t.staged,
        deleted: t.deleted,
        end: code,
    }
}

fn count_of(step: i32) -> u64
    requires { is_negative step ≡ false }
    ensures { result ≡ nat_abs step }
{
    signed::usize_from_i32(step) as u64
}

// One step: a block of so many calls, or a fork of so many blocks.
fn turn(
    step: i32,
    room: usize,
    ids: &mut [u8],
    numbers: &mut [i64],
    lengths: &mut [usize],
    spills: &mut [i32],
    staged: &mut [u8],
    table: &mut [u8],
    deleted: &mut [u8],
    hints: &mut [u16],
    standing: &mut [i64],
    run: TrialRun,
) -> TrialRun
    requires { TurnReady room run.source run.blocks run.state.stood run.state.end standing.old (state ids.old numbers.old lengths.old spills.old (lists_with run.state.counts staged.old table.old deleted.old)) }
    ensures { TurnBy room step run.source run.blocks (held run.state ids.old numbers.old lengths.old spills.old staged.old table.old deleted.old) standing.old
        result.source result.blocks (held result.state ids.new numbers.new lengths.new spills.new staged.new table.new deleted.new) standing.new }
{
    let source = run.source;
    let state = run.state;
    let blocks = run.blocks;
    if signed::is_negative_i32(step) {
        let depth = signed::magnitude(signed::i64_from_i32(step));
        if standing_calls::may_undo(depth, blocks) {
            let lowest = blocks - depth;
            let after = fork(
                lowest, ids, numbers, lengths, spills, staged, table, deleted, hints, standing,
                state,
            );
            return TrialRun {
                source,
                state: after,
                blocks: lowest,
            };
        }
        let refused = ended_by(refusal::FORK_TOO_DEEP, state);
        return TrialRun {
            source,
            state: refused,
            blocks,
        };
    }
    let n = count_of(step);
    let d = block(
        n, room, blocks, ids, numbers, lengths, spills, staged, table, deleted, hints, standing,
        source, state,
    );
    let source_after = d.source;
    let state_after = d.state;
    let blocks_after = blocks + 1;
    TrialRun {
        source: source_after,
        state: state_after,
        blocks: blocks_after,
    }
}

// The steps one after the other, until one ends the trial.
pub fn run_trial(
    steps: &[i32],
    room: usize,
    ids: &mut [u8],
    numbers: &mut [i64],
    lengths: &mut [usize],
    spills: &mut [i32],
    staged: &mut [u8],
    table: &mut [u8],
    deleted: &mut [u8],
    hints: &mut [u16],
    standing: &mut [i64],
    start: TrialRun,
) -> TrialRun
    requires { RunReady (length steps.now) room start.source start.blocks start.state.stood start.state.end standing.old (state ids.old numbers.old lengths.old spills.old (lists_with start.state.counts staged.old table.old deleted.old)) }
    ensures { RunBy room steps.now start.source start.blocks (held start.state ids.old numbers.old lengths.old spills.old staged.old table.old deleted.old) standing.old
        result.source result.blocks (held result.state ids.new numbers.new lengths.new spills.new staged.new table.new deleted.new) standing.new }
{
    let mut run = start;
    for step in steps {
        run = turn(
            *step, room, ids, numbers, lengths, spills, staged, table, deleted, hints, standing,
            run,
        );
        let state = run.state;
        if state.end != 0 {
            return run;
        }
    }
    run
}

// Where a trial of staging sizes stands (document 02, U12): the state beside its buffers, the list of standing calls, and which of them a fork undoes.
#![tactic(auto)]

ghost use Rattle.std.specs.Prelude.{◌≡◌, ◌&&◌, ℕ, ◌+◌, ◌*◌, ◌-◌, ◌≤◌, ◌<◌, max, leb, ltb, length};
ghost use Rattle.buffer_core.specs.Edition.{edition_1};
ghost use Rattle.trial_core.specs.Trial.{depth_limit, changes, ends_run, undo_of};
ghost use Rattle.standing_calls.specs.Stands.{side_of, noted_state, number_limit, stood_kind, stood_number, stood_call, stood_at, with_stood, is_flush, StandReady, StandsBy};

use buffer_core::Direction;
use calls::Call;
use index_types::SpillCounts;
use segment_id::Kind;
use trial_core::STOOD;

// Which of calls and undos came last, or neither since the start.
#[derive(Clone, Copy)]
pub enum Side {
    Neither,
    Called,
    Undid,
}

// Where a trial stands: the counts of the lists, the side, how many calls stand, the largest numbers of staged rows and of deleted keys so far, and the number
// that ended it, or 0.
#[derive(Clone, Copy)]
pub struct TrialState {
    pub counts: SpillCounts,
    pub side: Side,
    pub stood: usize,
    pub staged: usize,
    pub deleted: usize,
    pub end: u8,
}

// How many calls stand after a call, and the number that ends the trial, or 0.
#[derive(Clone, Copy)]
pub struct Standing {
    pub stood: usize,
    pub end: u8,
}

// ---- the largest numbers, and the side

fn larger(a: usize, b: usize) -> usize
    ensures { result ≡ max a b }
{
    if a < b { b } else { a }
}

// The state after a call: the counts that it left, the largest numbers so far, and what it said as the end.
pub fn noted(counts: SpillCounts, code: u8, t: TrialState) -> TrialState
    ensures { result ≡ noted_state counts code t }
{
    let side = t.side;
    let staged = counts.staged;
    let deleted = counts.deleted;
    let most_staged = larger(t.staged, staged.count);
    let most_deleted = larger(t.deleted, deleted.count);
    TrialState {
        counts,
        side,
        stood: t.stood,
        staged: most_staged,
        deleted: most_deleted,
        end: code,
    }
}

// Whether the side changes, so that a flush is made.
pub fn changes(from: Side, to: Side) -> bool
    ensures { (room : ℕ) → result ≡ changes edition_1 room (side_of from) (side_of to) }
{
    match from {
        Side::Neither => false,
        Side::Called => match to {
            Side::Neither => false,
            Side::Called => false,
            Side::Undid => true,
        },
        Side::Undid => match to {
            Side::Neither => false,
            Side::Called => true,
            Side::Undid => false,
        },
    }
}

// ---- standing calls: three numbers each in a borrowed list

fn stood_kind(call: Call) -> u64
    ensures { result ≡ stood_kind call }
{
    match call {
        Call::Append(kind, _, _) => match kind {
            Kind::Box => 0,
            Kind::Tx => 1,
        },
        Call::Flip(_, _, _) => 2,
        Call::Pop(_, _) => 3,
        Call::Flush => 3,
        Call::Change(_, _, _, _, _) => 3,
        Call::Bad => 3,
        Call::Cut => 3,
        Call::End => 3,
    }
}

fn stood_number(call: Call) -> i64
    ensures { result ≡ stood_number call }
{
    match call {
        Call::Append(_, _, number) => number,
        Call::Flip(_, _, number) => number,
        Call::Pop(_, _) => 0,
        Call::Flush => 0,
        Call::Change(_, _, _, _, _) => 0,
        Call::Bad => 0,
        Call::Cut => 0,
        Call::End => 0,
    }
}

// Whether a drawn call is a flush, which never stands.
pub fn is_flush(call: Call) -> bool
    ensures { result ≡ is_flush call }
{
    match call {
        Call::Append(_, _, _) => false,
        Call::Flip(_, _, _) => false,
        Call::Pop(_, _) => false,
        Call::Flush => true,
        Call::Change(_, _, _, _, _) => false,
        Call::Bad => false,
        Call::Cut => false,
        Call::End => false,
    }
}

// Writes a call behind the standing ones.
fn put_stood(call: Call, block: u64, standing: &mut [i64], stood: usize)
    requires { (stood * 3 + 3 ≤ length standing.old) × (block < number_limit) }
    ensures { standing.new ≡ with_stood call block stood standing.old }
{
    let kind = signed::i64_from_u64(stood_kind(call));
    let number = stood_number(call);
    let of_block = signed::i64_from_u64(block);
    let a = stood * STOOD;
    let b = stood * STOOD + 1;
    let c = stood * STOOD + 2;
    standing[a] = kind;
    standing[b] = number;
    standing[c] = of_block;
}

// Whether a refused call ends the trial.
fn ends_run(code: u8) -> bool
    ensures { (room : ℕ) → result ≡ ends_run edition_1 room code }
{
    if code == refusal::STAGING_FULL {
        return true;
    }
    if code == refusal::DELETED_FULL {
        return true;
    }
    code == refusal::TABLE_FULL
}

// What becomes of the standing calls: an accepted call stands; 40 where the list is full.
pub fn stand(
    call: Call,
    room: usize,
    block: u64,
    standing: &mut [i64],
    stood: usize,
    code: u8,
) -> Standing
    requires { StandReady room block stood standing.old }
    ensures { StandsBy room block call stood code standing.old result standing.new }
{
    if code == 0 {
        if stood < room {
            put_stood(call, block, standing, stood);
            return Standing {
                stood: stood + 1,
                end: 0,
            };
        }
        return Standing {
            stood,
            end: refusal::STANDING_CALLS_FULL,
        };
    }
    if ends_run(code) {
        return Standing { stood, end: code };
    }
    Standing { stood, end: 0 }
}

// ---- an undo of the newest standing call

fn undo_call(kind: u64, number: i64) -> Call
    ensures { (room : ℕ) → result ≡ undo_of edition_1 room (stood_call kind number) }
{
    if kind == 0 {
        return Call::Pop(Kind::Box, 0);
    }
    if kind == 1 {
        return Call::Pop(Kind::Tx, 0);
    }
    Call::Flip(Direction::Unspend, 0, number)
}

// The undo of the newest standing call.
pub fn newest_undo(standing: &[i64], stood: usize) -> Call
    requires { (0 < stood) × (stood * 3 ≤ length standing.now) }
    ensures { (room : ℕ) → result ≡ undo_of edition_1 room (stood_at (stood - 1) standing.now).call }
{
    let i = stood - 1;
    let a = i * STOOD;
    let b = i * STOOD + 1;
    let kind = signed::magnitude(standing[a]);
    let number = standing[b];
    undo_call(kind, number)
}

// ---- a fork

// The most blocks that a fork undoes.
const DEPTH_LIMIT: u64 = 720;

// Whether so many blocks may be undone: no more than 720, and no more than stand.
pub fn may_undo(depth: u64, blocks: u64) -> bool
    ensures { result ≡ leb depth depth_limit && leb depth blocks }
{
    if depth <= DEPTH_LIMIT {
        return depth <= blocks;
    }
    false
}

// Whether a standing call is of a block before the lowest that a fork undoes.
pub fn is_earlier(standing: &[i64], at: usize, lowest: u64) -> bool
    requires { at * 3 + 3 ≤ length standing.now }
    ensures { result ≡ ltb (stood_at at standing.now).block lowest }
{
    let i = at * STOOD + 2;
    let number = signed::magnitude(standing[i]);
    number < lowest
}

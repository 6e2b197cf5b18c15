// One step of a driver on the state of all parents, once refusal 25 has passed: a call made or undone, an unspend or a pop, or a flush.
#![tactic(auto)]

ghost use Rattle.std.specs.Prelude.{◌≡◌};
ghost use Rattle.call_steps.specs.State.{state};
ghost use Rattle.call_steps.specs.Steps.{left_by, lists_with};
ghost use Rattle.driver_core.specs.Steps.{may_be_lifted};
ghost use Rattle.driver_steps.specs.Moves.{move_of, made_by, undone_by, MoveReady};

use buffer_core::Direction;
use call_steps::Stepped;
use calls::Call;
use driver_calls::Read;
use index_types::SpillCounts;

// A step of the runner; or a credit where it adds, else a debit: parent, nanoErgs, where its tokens begin and how many they are.
#[derive(Clone, Copy)]
pub enum Move {
    Segment(Call),
    Balance(bool, usize, i64, usize, usize),
}

// What making a call does.
pub fn made_by(read: Read) -> Move
    ensures { result ≡ made_by read }
{
    match read {
        Read::Append(kind, p, n) => Move::Segment(Call::Append(kind, p, n)),
        Read::Spend(p, n) => Move::Segment(Call::Flip(Direction::Spend, p, n)),
        Read::Unspend(p, n) => Move::Segment(Call::Flip(Direction::Unspend, p, n)),
        Read::Pop(kind, p) => Move::Segment(Call::Pop(kind, p)),
        Read::Flush => Move::Segment(Call::Flush),
        Read::Change(adding, p, n, t, k) => Move::Balance(adding, p, n, t, k),
        Read::Bad => Move::Segment(Call::Bad),
        Read::Cut => Move::Segment(Call::Cut),
        Read::End => Move::Segment(Call::End),
    }
}

// What undoing a call does; an unspend or a pop is not undone.
pub fn undone_by(read: Read) -> Move
    ensures { result ≡ undone_by read }
{
    match read {
        Read::Append(kind, p, _) => Move::Segment(Call::Pop(kind, p)),
        Read::Spend(p, n) => Move::Segment(Call::Flip(Direction::Unspend, p, n)),
        Read::Unspend(_, _) => Move::Segment(Call::Bad),
        Read::Pop(_, _) => Move::Segment(Call::Bad),
        Read::Flush => Move::Segment(Call::Flush),
        Read::Change(adding, p, n, t, k) => Move::Balance(!adding, p, n, t, k),
        Read::Bad => Move::Segment(Call::Bad),
        Read::Cut => Move::Segment(Call::Cut),
        Read::End => Move::Segment(Call::End),
    }
}

// Whether a driver lifts a refusal and makes the call again.
pub fn may_be_lifted(code: u8) -> bool
    ensures { result ≡ may_be_lifted code }
{
    if code == refusal::ROW_MISSING {
        return true;
    }
    if code == refusal::STAGING_FULL {
        return true;
    }
    if code == refusal::DELETED_FULL {
        return true;
    }
    code == refusal::TABLE_FULL
}

// Makes a step; s has the tokens. The hints say where the table's records may stand (`record_hints`).
pub fn step(
    m: Move,
    s: &[u8],
    ids: &mut [u8],
    numbers: &mut [i64],
    lengths: &mut [usize],
    spills: &mut [i32],
    staged: &mut [u8],
    table: &mut [u8],
    deleted: &mut [u8],
    hints: &mut [u16],
    counts: SpillCounts,
) -> Stepped
    requires { MoveReady s.now m (state ids.old numbers.old lengths.old spills.old (lists_with counts staged.old table.old deleted.old)) }
    ensures { left_by result ids.new numbers.new lengths.new spills.new staged.new table.new deleted.new
        ≡ move_of s.now m (state ids.old numbers.old lengths.old spills.old
        (lists_with counts staged.old table.old deleted.old)) }
{
    match m {
        Move::Segment(call) => run_steps::step(
            call, ids, numbers, lengths, spills, staged, table, deleted, hints, counts,
        ),
        Move::Balance(adding, p, nanos, t, n) => {
            let said = driver_changes::change_with(
                adding, p, nanos, s, t, n, ids, numbers, lengths,
            );
            Stepped { said, counts }
        }
    }
}

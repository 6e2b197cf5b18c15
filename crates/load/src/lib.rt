// A load that can be repeated (document 02, U11): as many calls of the runner as asked, written into borrowed bytes. Equal states give equal calls.
#![tactic(auto)]

ghost use Rattle.std.specs.Prelude.{◌≡◌, ◌+◌, ◌≤◌, leb, length};
ghost use Rattle.stores.specs.Stores.{Put};
ghost use Rattle.load.specs.Bytes.{append_byte, flip_byte, numbered, call_bytes, load_bytes};
ghost use Rattle.load.specs.Generated.{generated, written_from, generated_from, generate_load_of, go_on_of};
ghost use Rattle.load.specs.Internal.{Countable};

use buffer_core::Direction;
use calls::Call;
pub use load_core::Source;
use segment_id::Kind;

// The largest counts of a source from which a load goes on: whatever the output's length, its numbers stay within 64 signed bits.
pub const MOST_COUNTED: u64 = 4611686018427387904;

const PARENT: u8 = 0;

const FLUSH: u8 = 7;

// The bytes written, and the generator after them.
pub type Generated = Result<(usize, Source), u8>;

// ---- one call

fn append_byte(kind: Kind) -> u8
    ensures { result ≡ append_byte kind }
{
    match kind {
        Kind::Box => 1,
        Kind::Tx => 2,
    }
}

fn flip_byte(direction: Direction) -> u8
    ensures { result ≡ flip_byte direction }
{
    match direction {
        Direction::Spend => 3,
        Direction::Unspend => 4,
    }
}

// Writes a call that takes a number.
fn put_numbered(kind: u8, number: i64, out: &mut [u8], at: usize) -> usize
    requires { at + 10 ≤ length out.old }
    ensures { Put (numbered kind number) out.old at result out.new }
{
    let n = signed::magnitude(number);
    let after_kind = stores::put_byte(kind, out, at);
    let after_parent = stores::put_byte(PARENT, out, after_kind);
    big_endian::put_u64(n, out, after_parent)
}

// Writes a drawn call; there is nothing to write of a call that no draw picks.
fn put_call(call: Call, out: &mut [u8], at: usize) -> usize
    requires { at + length (call_bytes call) ≤ length out.old }
    ensures { Put (call_bytes call) out.old at result out.new }
{
    match call {
        Call::Append(kind, _, number) => put_numbered(append_byte(kind), number, out, at),
        Call::Flip(direction, _, number) => put_numbered(flip_byte(direction), number, out, at),
        Call::Flush => stores::put_byte(FLUSH, out, at),
        Call::Pop(_, _) => at,
        Call::Change(_, _, _, _, _) => at,
        Call::Bad => at,
        Call::Cut => at,
        Call::End => at,
    }
}

// ---- a load

// Whether the next calls have room in so many bytes.
fn fits(g: Source, count: u64, room: usize) -> bool
    requires { Countable room g }
    ensures { result ≡ leb (length (load_bytes count g)) room }
{
    let mut source = g;
    let mut free = room;
    for _ in 0..count {
        let d = load_core::next_call(source);
        let call = d.call;
        let next = d.next;
        let n = calls::size_of(call);
        if free < n {
            return false;
        }
        free -= n;
        source = next;
    }
    true
}

// Writes the next calls at the front of an output that has room for them.
fn write_calls(g: Source, count: u64, out: &mut [u8]) -> Generated
    requires { Countable (length out.old) g × (length (load_bytes count g) ≤ length out.old) }
    ensures { generated result out.new ≡ written_from count g out.old }
{
    let mut source = g;
    let mut at = 0;
    for _ in 0..count {
        let d = load_core::next_call(source);
        let call = d.call;
        let next = d.next;
        at = put_call(call, out, at);
        source = next;
    }
    Ok((at, source))
}

// 38, then 32 by the exact bytes, then the calls.
fn generate(g: Source, count: u64, out: &mut [u8]) -> Generated
    requires { Countable (length out.old) g }
    ensures { generated result out.new ≡ generated_from count g out.old }
{
    if g.state == 0 {
        return Err(refusal::STATE_IS_ZERO);
    }
    if fits(g, count, out.len()) {
        return write_calls(g, count, out);
    }
    Err(refusal::OUTPUT_TOO_SHORT)
}

// Writes `count` calls at the front of the output, drawn from a state that is not 0.
pub fn generate_load(state: u64, count: u64, out: &mut [u8]) -> Generated
    ensures { generated result out.new ≡ generate_load_of count state out.old }
{
    generate(
        Source {
            state,
            boxes: 0,
            txs: 0,
        },
        count,
        out,
    )
}

// Writes `count` calls more, from the generator that an earlier load left.
pub fn go_on(source: Source, count: u64, out: &mut [u8]) -> Generated
    ensures { generated result out.new ≡ go_on_of count source out.old }
{
    if MOST_COUNTED < source.boxes {
        return Err(refusal::BUFFERS);
    }
    if MOST_COUNTED < source.txs {
        return Err(refusal::BUFFERS);
    }
    generate(source, count, out)
}

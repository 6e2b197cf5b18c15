// The working buffers of a trial of staging sizes (document 02, U12): what is tested before it starts, and their zeros.
#![tactic(auto)]

ghost use Rattle.std.specs.Prelude.{◌≡◌, ◌*◌, ◌<◌, leb, pos, length, replicate};
ghost use Rattle.trial_buffers.specs.Sizes.{sizes_ok, refused_by};

use trial_core::STOOD;

// The most steps of a trial, and the bytes of a key.
const STEP_LIMIT: usize = 4096;

pub const KEY: usize = 32;

// ---- refusal 25

// Whether a buffer is as long as its stated capacity.
fn fits(capacity: usize, size: usize, length: usize) -> bool
    requires { 0 < size }
    ensures { result ≡ leb (capacity * size) length }
{
    capacity <= length / size
}

// At most 4,096 steps, and buffers as long as their stated capacities.
fn sizes_ok(
    steps: usize,
    table_capacity: usize,
    table: usize,
    staged_capacity: usize,
    staged: usize,
    deleted_capacity: usize,
    deleted: usize,
    room: usize,
    standing: usize,
) -> bool
    ensures { result ≡ sizes_ok table_capacity staged_capacity deleted_capacity room steps table staged deleted standing }
{
    if steps <= STEP_LIMIT {
        if fits(table_capacity, buffer_core::RECORD, table) {
            if fits(staged_capacity, buffer_core::RECORD, staged) {
                if fits(deleted_capacity, KEY, deleted) {
                    return fits(room, STOOD, standing);
                }
            }
        }
    }
    false
}

// The number by which a trial is turned away before it starts, or 0: 25, then 38.
pub fn refused(
    state: u64,
    steps: usize,
    table_capacity: usize,
    table: usize,
    staged_capacity: usize,
    staged: usize,
    deleted_capacity: usize,
    deleted: usize,
    room: usize,
    standing: usize,
) -> u8
    ensures { result ≡ refused_by state (sizes_ok table_capacity staged_capacity deleted_capacity room steps table staged deleted standing) }
{
    let ok = sizes_ok(
        steps,
        table_capacity,
        table,
        staged_capacity,
        staged,
        deleted_capacity,
        deleted,
        room,
        standing,
    );
    if ok {
        if state == 0 {
            return refusal::STATE_IS_ZERO;
        }
        return 0;
    }
    refusal::BUFFERS
}

// ---- zeros

fn zero_bytes(dst: &mut [u8])
    ensures { dst.new ≡ replicate (length dst.old) 0 }
{
    let n = dst.len();
    stores::clear_bytes(dst, 0, n);
}

fn zero_numbers(dst: &mut [i64])
    ensures { dst.new ≡ replicate (length dst.old) (pos 0) }
{
    let n = dst.len();
    stores::clear_numbers(dst, 0, n);
}

// Zeros in all four.
pub fn zero_all(table: &mut [u8], staged: &mut [u8], deleted: &mut [u8], standing: &mut [i64])
    ensures { (table.new ≡ replicate (length table.old) 0) × (staged.new ≡ replicate (length staged.old) 0)
        × (deleted.new ≡ replicate (length deleted.old) 0) × (standing.new ≡ replicate (length standing.old) (pos 0)) }
{
    zero_bytes(table);
    zero_bytes(staged);
    zero_bytes(deleted);
    zero_numbers(standing);
}

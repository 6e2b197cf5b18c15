// What stands before the body of a row of the second edition, with the kind as its byte: tested, and written.
#![tactic(auto)]

ghost use Rattle.std.specs.Prelude.{◌≡◌, ◌++◌, ◌+◌, ◌≤◌, length};
ghost use Rattle.stores.specs.Stores.{Put};
ghost use Rattle.vlq_core.specs.Zigzag.{zig};
ghost use Rattle.vlq_core.specs.Groups.{enc};
ghost use Rattle.vlq_core.specs.Writing.{written, put_bytes};
ghost use Rattle.index_types.specs.declared.RowEdition.TheVariants.{Two};
ghost use Rattle.segment_core.specs.Row.{row_limit};
ghost use Rattle.buffer_core.specs.Edition.{number_at};
ghost use Rattle.row_fronts.specs.Fronts.{is_kind, front, tells};

use index_types::Wrote;

// Where the spill number stands: behind the parent and the kind byte.
pub const NUMBER_AT: usize = 33;

// Whether a byte stands for a kind.
pub fn is_kind(kind: u8) -> bool
    ensures { result ≡ is_kind kind }
{
    if kind == 1 {
        return true;
    }
    kind == 2
}

// Whether a row of the second edition says the three that are given; `coded` is the spill number that it writes, in coded form.
pub fn says_so(parent: &[u8], kind: u8, number: i32, row: &[u8], coded: u64) -> bool
    requires { number_at ≤ length row.now }
    ensures { result ≡ tells Two parent.now kind number row.now coded }
{
    if !is_kind(kind) {
        return false;
    }
    let written = &row[0..32];
    if !stores::same_bytes(written, parent) {
        return false;
    }
    if row[32] != kind {
        return false;
    }
    coded == vlq_writing::zigzag_i32(number) as u64
}

// Writes what stands before the body in the second edition, and gives its length.
fn emit_front(parent: &[u8], kind: u8, number: i32, out: &mut [u8]) -> usize
    requires { (length parent.now ≡ 32) × (number_at + length (enc (zig number)) ≤ length out.old) }
    ensures { Put (front Two parent.now kind number) out.old 0 result out.new }
{
    let kind_at = stores::put_bytes(parent, out, 0);
    let number_at = stores::put_byte(kind, out, kind_at);
    vlq_writing::emit_i32(number, out, number_at)
}

// Writes the row of the second edition whose body is a row of the first.
pub fn put_second(row: &[u8], parent: &[u8], kind: u8, number: i32, out: &mut [u8]) -> Wrote
    requires { (length row.now ≤ row_limit) × (length parent.now ≡ 32) }
    ensures { written result out.new ≡ put_bytes (front Two parent.now kind number ++ row.now) out.old 0 }
{
    let start = NUMBER_AT + vlq_writing::number_len_i32(number);
    if out.len() < start + row.len() {
        return Err(refusal::OUTPUT_TOO_SHORT);
    }
    let at = emit_front(parent, kind, number, out);
    Ok(stores::put_bytes(row, out, at))
}

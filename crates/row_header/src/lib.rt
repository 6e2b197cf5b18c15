// What stands before the body of a spill's row, in either edition: the header written, what it says of whose row it is, and where the body begins.
#![tactic(auto)]

ghost use Rattle.std.specs.Prelude.{◌≡◌, ◌<◌, ◌≤◌, pos, length, set};
ghost use Rattle.stores.specs.Stores.{Put};
ghost use Rattle.buffer_core.specs.Edition.{number_at, header_limit, kind_byte, header, body_at, says};
ghost use Rattle.row_header.specs.Internal.{BodyStart};

use index_types::RowEdition;
use segment_id::Kind;

// Where the spill number stands in a row of the second edition: behind the parent and the kind byte.
pub const NUMBER_AT: usize = 33;

// The byte that stands for a kind.
fn kind_byte(kind: Kind) -> u8
    ensures { result ≡ kind_byte kind }
{
    match kind {
        Kind::Box => 1,
        Kind::Tx => 2,
    }
}

// Stores a byte at a place.
fn put_byte(out: &mut [u8], at: usize, byte: u8)
    requires { at < length out.old }
    ensures { out.new ≡ set out.old at byte }
{
    out[at] = byte;
}

// Writes the header of a row of the second edition, and gives its length.
fn emit_second_header(kind: Kind, parent: &[u8; 32], number: usize, out: &mut [u8]) -> usize
    requires { (header_limit ≤ length out.old) × (number < 2147483648) }
    ensures { Put (header RowEdition.Two kind parent.now (pos number)) out.old 0 result out.new × (result ≤ header_limit) }
{
    stores::copy_bytes(out, 0, parent);
    put_byte(out, 32, kind_byte(kind));
    vlq_writing::emit_i32(signed::i32_from_usize(number), out, NUMBER_AT)
}

// Writes what stands before the body of a spill's row, and gives its length.
pub fn emit_header(
    edition: RowEdition,
    kind: Kind,
    parent: &[u8; 32],
    number: usize,
    out: &mut [u8],
) -> usize
    requires { (header_limit ≤ length out.old) × (number < 2147483648) }
    ensures { Put (header edition kind parent.now (pos number)) out.old 0 result out.new × (result ≤ header_limit) }
{
    match edition {
        RowEdition::One => 0,
        RowEdition::Two => emit_second_header(kind, parent, number, out),
    }
}

// Whether a row of the second edition is that of a spill; `coded` is the spill number that it writes, in coded form.
pub fn says_so(kind: Kind, parent: &[u8], number: usize, row: &[u8], coded: u64) -> bool
    requires { (number < 2147483648) × (number_at ≤ length row.now) }
    ensures { result ≡ says RowEdition.Two kind parent.now (pos number) row.now coded }
{
    let written = &row[0..32];
    if !stores::same_bytes(written, parent) {
        return false;
    }
    if row[32] != kind_byte(kind) {
        return false;
    }
    coded == 2 * (number as u64)
}

// Where the body begins of a row whose header can be read.
pub fn body_start(edition: RowEdition, row: &[u8]) -> usize
    ensures { BodyStart (body_at edition row.now) result }
{
    match edition {
        RowEdition::One => 0,
        RowEdition::Two => match vlq_reading::get_coded_32(row, NUMBER_AT) {
            Ok((_, at)) => at,
            Err(_) => 0,
        },
    }
}

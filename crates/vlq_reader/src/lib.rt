// A reader of coded numbers: a struct over the row's bytes and a position in them, as `VlqReader` is.
// Each function over it is thin and leaves the work to a function on a slice and a position.
#![tactic(auto)]

ghost use Rattle.std.specs.Prelude.{◌≡◌};
ghost use Rattle.vlq_core.specs.Reading.{read_at, long_of, int_of};
ghost use Rattle.vlq_positions.specs.Positions.{after, span_at};
ghost use Rattle.vlq_reader.specs.Reader.{started, position_of, moved_to};

use index_types::{Int, Long};

// The n bytes at a position.
pub use vlq_positions::{Span, get_bytes};

#[derive(Clone, Copy)]
pub struct VlqReader<'a> {
    pub src: &'a [u8],
    pub at: usize,
}

// A reader at the start of the bytes.
pub fn new<'a>(src: &'a [u8]) -> VlqReader<'a>
    ensures { result ≡ started src.entry }
{
    VlqReader { src, at: 0 }
}

// The position of the next byte to read.
pub fn position<'a>(held: VlqReader<'a>) -> usize
    ensures { result ≡ position_of held.entry }
{
    held.at
}

// Reads a signed 64-bit number; a refusal leaves the reader where it was.
pub fn read_i64<'s, 'a>(reader: &'s mut VlqReader<'a>) -> Long
    ensures { (result ≡ long_of (read_at 64 reader.old.src.now reader.old.at))
        × (reader.new ≡ moved_to reader.old (after result reader.old.at)) }
{
    let src = reader.src;
    let at = reader.at;
    let found = vlq::get_i64(src, at);
    let next = vlq_positions::after(found, at);
    reader.at = next;
    found
}

// Reads a signed 32-bit number; a refusal leaves the reader where it was.
pub fn read_i32<'s, 'a>(reader: &'s mut VlqReader<'a>) -> Int
    ensures { (result ≡ int_of (read_at 32 reader.old.src.now reader.old.at))
        × (reader.new ≡ moved_to reader.old (after result reader.old.at)) }
{
    let src = reader.src;
    let at = reader.at;
    let found = vlq::get_i32(src, at);
    let next = vlq_positions::after(found, at);
    reader.at = next;
    found
}

// Reads n bytes: where they stand; a refusal leaves the reader where it was.
pub fn read_bytes<'s, 'a>(reader: &'s mut VlqReader<'a>, n: usize) -> Span
    ensures { (result ≡ span_at reader.old.src.now reader.old.at n)
        × (reader.new ≡ moved_to reader.old (after result reader.old.at)) }
{
    let src = reader.src;
    let at = reader.at;
    let found = vlq_positions::get_bytes(src, at, n);
    let next = vlq_positions::after(found, at);
    reader.at = next;
    found
}

// The signed 64-bit number at the start of a slice: a reader is made and read from.
pub fn first_i64(src: &[u8]) -> Long
    ensures { result ≡ long_of (read_at 64 src.now 0) }
{
    let mut reader = new(src);
    read_i64(&mut reader)
}

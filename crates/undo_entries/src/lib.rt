// Undo entries: what to restore when a block is taken back. Users name them by `undo::entry`.
#![tactic(auto)]

ghost use Rattle.std.specs.Prelude.{◌≡◌, [], ◌∷◌, ◌++◌, ◌+◌, ◌≤◌, length, take, drop};
ghost use Rattle.stores.specs.Stores.{Put};
ghost use Rattle.big_endian.specs.BigEndian.{eight_bytes};
ghost use Rattle.undo_entries.specs.Entry.{encoded_of, encoded, refused_with, decoded_of, numbers_of};

use refusal::Answer;

// The state before a block: whether a header preceded it and which, and the numbers of transactions and boxes.
#[derive(Clone, Copy)]
pub struct UndoEntry {
    pub known: bool,
    pub header: [u8; 32],
    pub txs: u64,
    pub boxes: u64,
}

pub type Encoded = Result<usize, u8>;

// An answer, and the entry; a refusal gives the empty one.
#[derive(Clone, Copy)]
pub struct Decoded {
    pub answer: Answer,
    pub entry: UndoEntry,
}

// The two numbers at a position: the position behind them.
fn put_numbers(txs: u64, boxes: u64, out: &mut [u8], at: usize) -> usize
    requires { at + 16 ≤ length out.old }
    ensures { Put (eight_bytes txs ++ eight_bytes boxes) out.old at result out.new }
{
    let next = big_endian::put_u64(txs, out, at);
    big_endian::put_u64(boxes, out, next)
}

// An entry with a header, at the front.
fn put_known(header: &[u8; 32], txs: u64, boxes: u64, out: &mut [u8]) -> usize
    requires { (length header.now ≡ 32) × (49 ≤ length out.old) }
    ensures { Put (1 ∷ (header.now ++ (eight_bytes txs ++ eight_bytes boxes))) out.old 0 result out.new }
{
    let tag_end = stores::put_byte(1, out, 0);
    let id_end = stores::put_bytes(header, out, tag_end);
    put_numbers(txs, boxes, out, id_end)
}

// An entry without a header, at the front.
fn put_first(txs: u64, boxes: u64, out: &mut [u8]) -> usize
    requires { 17 ≤ length out.old }
    ensures { Put (0 ∷ (eight_bytes txs ++ eight_bytes boxes)) out.old 0 result out.new }
{
    let tag_end = stores::put_byte(0, out, 0);
    put_numbers(txs, boxes, out, tag_end)
}

// Writes an entry at the front of the output: 17 or 49 bytes.
pub fn encode(entry: UndoEntry, out: &mut [u8]) -> Encoded
    ensures { encoded result out.new ≡ encoded_of entry out.old }
{
    let txs = entry.txs;
    let boxes = entry.boxes;
    if entry.known {
        if out.len() < 49 {
            return Err(refusal::OUTPUT_TOO_SHORT);
        }
        let header = entry.header;
        return Ok(put_known(&header, txs, boxes, out));
    }
    if out.len() < 17 {
        return Err(refusal::OUTPUT_TOO_SHORT);
    }
    Ok(put_first(txs, boxes, out))
}

// A refusal with the empty entry.
fn refused(code: u8) -> Decoded
    ensures { result ≡ refused_with code }
{
    Decoded {
        answer: Err(code),
        entry: UndoEntry {
            known: false,
            header: [0u8; 32],
            txs: 0,
            boxes: 0,
        },
    }
}

// The header id behind the tag.
fn header_of(bytes: &[u8]) -> [u8; 32]
    requires { 33 ≤ length bytes.now }
    ensures { result ≡ take 32 (drop 1 bytes.now) }
{
    let (parts, _) = bytes[1..33].as_chunks::<32>();
    parts[0]
}

// The two numbers at a position, which end the entry.
fn numbers_at(known: bool, header: [u8; 32], bytes: &[u8], at: usize) -> Decoded
    requires { at ≤ 33 }
    ensures { result ≡ numbers_of known header bytes.now at }
{
    let end = at + 16;
    if bytes.len() < end {
        return refused(refusal::UNDO_ENTRY_NUMBERS_CUT);
    }
    if end < bytes.len() {
        return refused(refusal::UNDO_ENTRY_LEFT_OVER);
    }
    let txs = big_endian::get_u64(bytes, at);
    let boxes = big_endian::get_u64(bytes, at + 8);
    Decoded {
        answer: Ok(()),
        entry: UndoEntry {
            known,
            header,
            txs,
            boxes,
        },
    }
}

// Reads an entry that takes up all the bytes.
pub fn decode(bytes: &[u8]) -> Decoded
    ensures { result ≡ decoded_of bytes.now }
{
    if bytes.len() == 0 {
        return refused(refusal::UNDO_ENTRY_EMPTY);
    }
    let tag = bytes[0];
    if tag == 0 {
        return numbers_at(false, [0u8; 32], bytes, 1);
    }
    if tag == 1 {
        if bytes.len() < 33 {
            return refused(refusal::UNDO_ENTRY_ID_CUT);
        }
        return numbers_at(true, header_of(bytes), bytes, 33);
    }
    refused(refusal::UNDO_ENTRY_TAG)
}

// Writing an address record: the size of each part, and the part written where it fits.
// Internal: the parts of the record are asked for by size. The public calls are those of `address`.
#![tactic(auto)]

ghost use Rattle.std.specs.Prelude.{◌≡◌, List, ℕ, ◌+◌, ◌*◌, ◌≤◌, length, take, drop};
ghost use Rattle.index_types.specs.Limits.{token_limit, token_id_bytes};
ghost use Rattle.stores.specs.Stores.{Put};
ghost use Rattle.vlq_core.specs.Writing.{written};
ghost use Rattle.segment_core.specs.Row.{row_bytes, Held};
ghost use Rattle.segment.specs.Calls.{held};
ghost use Rattle.address_core.specs.Bytes.{token_bytes, tokens_bytes, balance_bytes, flagged_bytes, address_bytes, HeldTokens};
ghost use Rattle.address_core.specs.Writing.{buffers_ok, write_address};

use index_types::{TOKEN_LIMIT, Wrote};

// Writes the token at a place: its id, then its amount.
fn emit_token(ids: &[u8], place: usize, amount: i64, out: &mut [u8], at: usize) -> usize
    requires { (place * 32 + 32 ≤ length ids.now) × (at + length (token_bytes (take 32 (drop (place * 32) ids.now)) amount) ≤ length out.old) }
    ensures { Put (token_bytes (take 32 (drop (place * 32) ids.now)) amount) out.old at result out.new }
{
    let from = place * 32;
    let to = from + 32;
    let o = stores::put_bytes(&ids[from..to], out, at);
    vlq_writing::emit_i64(amount, out, o)
}

// Writes the first n tokens.
fn emit_tokens(ids: &[u8], amounts: &[i64], n: usize, out: &mut [u8], at: usize) -> usize
    requires { HeldTokens n ids.now amounts.now × (at + length (tokens_bytes ids.now (take n amounts.now)) ≤ length out.old) }
    ensures { Put (tokens_bytes ids.now (take n amounts.now)) out.old at result out.new }
{
    let mut o = at;
    for (i, amount) in amounts[..n].iter().enumerate() {
        o = emit_token(ids, i, *amount, out, o);
    }
    o
}

// Writes a balance: nanoErgs, the token count, the tokens.
fn emit_balance(
    nanos: i64,
    ids: &[u8],
    amounts: &[i64],
    n: usize,
    out: &mut [u8],
    at: usize,
) -> usize
    requires { HeldTokens n ids.now amounts.now × (at + length (balance_bytes nanos ids.now (take n amounts.now)) ≤ length out.old) }
    ensures { Put (balance_bytes nanos ids.now (take n amounts.now)) out.old at result out.new }
{
    let o = vlq_writing::emit_i64(nanos, out, at);
    let p = vlq_writing::emit_i32(signed::i32_from_usize(n), out, o);
    emit_tokens(ids, amounts, n, out, p)
}

// Writes the flag, and the balance behind it if it is set.
fn emit_flagged(
    has: bool,
    nanos: i64,
    ids: &[u8],
    amounts: &[i64],
    n: usize,
    out: &mut [u8],
    at: usize,
) -> usize
    requires { HeldTokens n ids.now amounts.now × (at + length (flagged_bytes has nanos ids.now (take n amounts.now)) ≤ length out.old) }
    ensures { Put (flagged_bytes has nanos ids.now (take n amounts.now)) out.old at result out.new }
{
    if !has {
        return stores::put_byte(0, out, at);
    }
    let o = stores::put_byte(1, out, at);
    emit_balance(nanos, ids, amounts, n, out, o)
}

// The number of bytes of the flag and the balance, whatever the ids.
fn flagged_len(has: bool, nanos: i64, amounts: &[i64], n: usize) -> usize
    requires { (n ≤ token_limit) × (n ≤ length amounts.now) }
    ensures { ((ids : List ℕ) → n * 32 ≤ length ids → result ≡ length (flagged_bytes has nanos ids (take n amounts.now))) × (result ≤ 9300) }
{
    if !has {
        return 1;
    }
    1 + vlq_writing::number_len(nanos) + segment_writing::list_len(amounts, n) + 32 * n
}

// Writes a record where it fits: the position after it.
fn emit_address(
    hash: &[u8],
    has: bool,
    nanos: i64,
    ids: &[u8],
    amounts: &[i64],
    n: usize,
    txs: &[i64],
    n_txs: usize,
    boxes: &[i64],
    n_boxes: usize,
    box_count: i32,
    tx_count: i32,
    out: &mut [u8],
    at: usize,
) -> usize
    requires { HeldTokens n ids.now amounts.now × Held n_txs txs.now × Held n_boxes boxes.now
        × (at + length (address_bytes hash.now has nanos ids.now (take n amounts.now) (row_bytes (take n_txs txs.now) (take n_boxes boxes.now) box_count tx_count)) ≤ length out.old) }
    ensures { Put (address_bytes hash.now has nanos ids.now (take n amounts.now)
        (row_bytes (take n_txs txs.now) (take n_boxes boxes.now) box_count tx_count)) out.old at result out.new }
{
    let o = stores::put_bytes(hash, out, at);
    let p = emit_flagged(has, nanos, ids, amounts, n, out, o);
    segment_writing::emit_segment(txs, n_txs, boxes, n_boxes, box_count, tx_count, out, p)
}

// Whether both lists are within 512 and within what is borrowed, and the balance within 128 tokens.
fn buffers_ok(n_txs: usize, len_txs: usize, n_boxes: usize, len_boxes: usize, count: usize) -> bool
    ensures { result ≡ buffers_ok n_txs len_txs n_boxes len_boxes count }
{
    if !segment::is_held(n_txs, len_txs) {
        return false;
    }
    if !segment::is_held(n_boxes, len_boxes) {
        return false;
    }
    count <= TOKEN_LIMIT
}

// Writes a record from a position on; a refused call changes nothing.
pub fn write_address(
    hash: &[u8],
    has: bool,
    nanos: i64,
    ids: &[u8],
    amounts: &[i64],
    count: usize,
    txs: &[i64],
    n_txs: usize,
    boxes: &[i64],
    n_boxes: usize,
    box_count: i32,
    tx_count: i32,
    out: &mut [u8],
    at: usize,
) -> Wrote
    requires { (length hash.now ≡ 32) × (length ids.now ≡ token_id_bytes) × (length amounts.now ≡ token_limit) }
    ensures { written result out.new
        ≡ write_address hash.now has nanos ids.now amounts.now count txs.now n_txs boxes.now n_boxes box_count tx_count out.old at }
{
    if !buffers_ok(n_txs, txs.len(), n_boxes, boxes.len(), count) {
        return Err(refusal::BUFFERS);
    }
    let part = flagged_len(has, nanos, amounts, count);
    let row = segment_writing::segment_len(txs, n_txs, boxes, n_boxes, box_count, tx_count);
    if !vlq_core::has_room(out.len(), at, 32 + part + row) {
        return Err(refusal::OUTPUT_TOO_SHORT);
    }
    Ok(emit_address(
        hash, has, nanos, ids, amounts, count, txs, n_txs, boxes, n_boxes, box_count, tx_count,
        out, at,
    ))
}

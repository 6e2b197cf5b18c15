// Reading an address record: into buffers of its own, so that a refusal changes no borrowed list.
// Internal: the reader asks for lists of 512. The public calls are those of `address`.
#![tactic(auto)]

ghost use Rattle.std.specs.Prelude.{◌≡◌, ◌+◌, ◌*◌, ◌<◌, ◌≤◌, length, take};
ghost use Rattle.index_types.specs.Limits.{segment_threshold, token_limit, token_id_bytes};
ghost use Rattle.address_core.specs.Reading.{token_at, tokens_at, count_at, balance_at, flagged_at};
ghost use Rattle.address_core.specs.Loading.{loading, refused_with, load_address};
ghost use Rattle.address_core.specs.Internal.{TokenInto, TokensInto, BalanceInto};

use address_core::{AddressRead, Flagged, IndexedAddress};
use balance::Balance;
use index_types::{Loaded, TOKEN_ID_BYTES, TOKEN_LIMIT};
use segment_core::Part;
use vlq_core::Got;

// A token, put at a place: 32 id bytes and an amount.
fn read_token(row: &[u8], at: usize, place: usize, ids: &mut [u8], amounts: &mut [i64]) -> Part
    requires { (place * 32 + 32 ≤ length ids.old) × (place < length amounts.old) }
    ensures { TokenInto (token_at row.now at) place ids.old amounts.old result ids.new amounts.new }
{
    if !vlq_core::has_room(row.len(), at, 32) {
        return Err(refusal::BYTES_END);
    }
    let end = at + 32;
    match vlq_reading::get_i64(row, end) {
        Ok((z, next)) => {
            stores::put_bytes(&row[at..end], ids, place * 32);
            amounts[place] = z;
            Ok((1, next))
        }
        Err(code) => Err(code),
    }
}

// k tokens from a position on.
fn read_tokens(row: &[u8], at: usize, k: usize, ids: &mut [u8], amounts: &mut [i64]) -> Part
    requires { (k * 32 ≤ length ids.old) × (k ≤ length amounts.old) }
    ensures { TokensInto k (tokens_at k row.now at) 0 ids.old amounts.old result ids.new amounts.new }
{
    let mut next = at;
    for i in 0..k {
        match read_token(row, next, i, ids, amounts) {
            Ok((_, n)) => {
                next = n;
            }
            Err(code) => {
                return Err(code);
            }
        }
    }
    Ok((k, next))
}

// The token count at a position, checked: not negative, within a 33rd of the bytes left, within 128.
fn read_count(row: &[u8], at: usize) -> Got
    ensures { result ≡ count_at row.now at }
{
    match vlq_reading::get_i32(row, at) {
        Ok((n, next)) => {
            if signed::is_negative_i32(n) {
                return Err(refusal::NEGATIVE_LENGTH);
            }
            let k = signed::usize_from_i32(n);
            if (row.len() - next) / 33 < k {
                return Err(refusal::LENGTH_ABOVE_BYTES_LEFT);
            }
            if TOKEN_LIMIT < k {
                return Err(refusal::TOO_MANY_TOKENS);
            }
            Ok((k as u64, next))
        }
        Err(code) => Err(code),
    }
}

// A balance: nanoErgs, the token count, the tokens.
fn read_balance(row: &[u8], at: usize, ids: &mut [u8], amounts: &mut [i64]) -> Flagged
    requires { (token_id_bytes ≤ length ids.old) × (token_limit ≤ length amounts.old) }
    ensures { BalanceInto (balance_at row.now at) ids.old amounts.old result ids.new amounts.new }
{
    let (nanos, p) = vlq_reading::get_i64(row, at)?;
    let (k, n) = read_count(row, p)?;
    let (count, next) = read_tokens(row, n, k as usize, ids, amounts)?;
    Ok((true, nanos, count, next))
}

// The flag at a position, and the balance behind it if it is set.
fn read_flagged(row: &[u8], at: usize, ids: &mut [u8], amounts: &mut [i64]) -> Flagged
    requires { (token_id_bytes ≤ length ids.old) × (token_limit ≤ length amounts.old) }
    ensures { BalanceInto (flagged_at row.now at) ids.old amounts.old result ids.new amounts.new }
{
    if row.len() <= at {
        return Err(refusal::BYTES_END);
    }
    let flag = row[at];
    if flag == 0 {
        return Ok((false, 0, 0, at + 1));
    }
    if flag == 1 {
        return read_balance(row, at + 1, ids, amounts);
    }
    Err(refusal::BAD_FLAG)
}

// The hash at the front of a record.
fn hash_of(row: &[u8]) -> [u8; 32]
    requires { 32 ≤ length row.now }
    ensures { result ≡ take 32 row.now }
{
    let mut hash = [0u8; 32];
    stores::copy_bytes(&mut hash, 0, &row[0..32]);
    hash
}

// A refusal, with an address that is all zero.
pub fn refused(code: u8) -> AddressRead
    ensures { result ≡ refused_with code }
{
    AddressRead {
        answer: Err(code),
        address: IndexedAddress {
            hash: [0u8; 32],
            has_balance: false,
            balance: Balance {
                ids: [0u8; TOKEN_ID_BYTES],
                amounts: [0i64; TOKEN_LIMIT],
                count: 0,
                nanos: 0,
            },
            txs: 0,
            boxes: 0,
            box_segment_count: 0,
            tx_segment_count: 0,
        },
    }
}

// Reads the record that takes up all the bytes into borrowed lists.
pub fn read_address(row: &[u8], txs: &mut [i64], boxes: &mut [i64]) -> AddressRead
    requires { (segment_threshold ≤ length txs.old) × (segment_threshold ≤ length boxes.old) }
    ensures { loading result txs.new boxes.new ≡ load_address row.now txs.old boxes.old }
{
    if row.len() < 32 {
        return refused(refusal::BYTES_END);
    }
    let hash = hash_of(row);
    let mut ids = [0u8; TOKEN_ID_BYTES];
    let mut amounts = [0i64; TOKEN_LIMIT];
    match read_flagged(row, 32, &mut ids, &mut amounts) {
        Err(code) => refused(code),
        Ok((has_balance, nanos, count, next)) => {
            match segment_loading::read_last_segment(row, next, txs, boxes) {
                Loaded::Refused(code) => refused(code),
                Loaded::Read {
                    txs: n,
                    boxes: m,
                    box_segment_count,
                    tx_segment_count,
                    next: _,
                } => AddressRead {
                    answer: Ok(()),
                    address: IndexedAddress {
                        hash,
                        has_balance,
                        balance: Balance {
                            ids,
                            amounts,
                            count,
                            nanos,
                        },
                        txs: n,
                        boxes: m,
                        box_segment_count,
                        tx_segment_count,
                    },
                },
            }
        }
    }
}

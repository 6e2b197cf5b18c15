// The lines that the call runner prints of its parents at the end, written into borrowed bytes: each writer answers the position behind what it wrote.
#![tactic(auto)]

ghost use Rattle.std.specs.Prelude.{◌∷◌, ◌+◌, ◌≤◌, length};
ghost use Rattle.stores.specs.Stores.{Put};
ghost use Rattle.line_parts.specs.Parts.{spaced};
ghost use Rattle.parent_lines.specs.Parents.{head_part, balance_part, parent_line};

const LINE_END: u8 = 10;

// Writes "p" and a parent.
fn put_parent(p: usize, out: &mut [u8], at: usize) -> usize
    requires { at + 22 ≤ length out.old }
    ensures { Put (112 ∷ spaced p) out.old at result out.new × (result ≤ at + 22) }
{
    out[at] = b'p';
    line_parts::put_spaced(p as u64, out, at + 1)
}

// Writes a head's length and spill count.
fn put_head(len: usize, spills: i32, out: &mut [u8], at: usize) -> usize
    requires { at + 43 ≤ length out.old }
    ensures { Put (head_part len spills) out.old at result out.new × (result ≤ at + 43) }
{
    let after_len = line_parts::put_spaced(len as u64, out, at);
    let wide = signed::i64_from_i32(spills);
    line_parts::put_spaced_number(wide, out, after_len)
}

// Writes the nanoErgs and the token count of a balance, and the line's end.
fn put_balance(nanos: i64, tokens: usize, out: &mut [u8], at: usize) -> usize
    requires { at + 44 ≤ length out.old }
    ensures { Put (balance_part nanos tokens) out.old at result out.new }
{
    let after_nanos = line_parts::put_spaced_number(nanos, out, at);
    let after_tokens = line_parts::put_spaced(tokens as u64, out, after_nanos);
    stores::put_byte(LINE_END, out, after_tokens)
}

// Writes a parent's line: "p", the parent, length and spill count of its box head and of its tx head, nanoErgs, token count.
pub fn put_parent_line(
    p: usize,
    box_len: usize,
    box_spills: i32,
    tx_len: usize,
    tx_spills: i32,
    nanos: i64,
    tokens: usize,
    out: &mut [u8],
    at: usize,
) -> usize
    requires { at + 160 ≤ length out.old }
    ensures { Put (parent_line p box_len box_spills tx_len tx_spills nanos tokens) out.old at result out.new }
{
    let after_parent = put_parent(p, out, at);
    let after_boxes = put_head(box_len, box_spills, out, after_parent);
    let after_txs = put_head(tx_len, tx_spills, out, after_boxes);
    put_balance(nanos, tokens, out, after_txs)
}

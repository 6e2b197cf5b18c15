// Undo entries and their retention.
#![tactic(auto)]

ghost use Rattle.std.specs.Prelude.{◌≡◌};
ghost use Rattle.undo_entries.specs.Entry.{encoded_of, decoded_of};
ghost use Rattle.ergo_index_undo.specs.Undo.{entry, encode_out, encode_export, decode_out, decode_export, window, prune_out, prune_call};

use undo::entry::{Encoded, UndoEntry};
use undo::prune::{Pruned, Window};

// Writes an undo entry at the front of the output, and how many bytes it took.
#[unsafe(no_mangle)]
pub extern "C" fn ergo_index_encode_undo_entry(
    known: bool,
    header: &[u8; 32],
    txs: u64,
    boxes: u64,
    out: &mut [u8],
    written: &mut usize,
) -> u8
    ensures { encode_out result written.new out.new ≡ encode_export written.old (encoded_of (entry known header.now txs boxes) out.old) }
{
    let id = *header;
    let before = UndoEntry {
        known,
        header: id,
        txs,
        boxes,
    };
    let encoded = undo::entry::encode(before, out);
    match encoded {
        Ok(n) => {
            *written = n;
            0
        }
        Err(code) => code,
    }
}

// Reads an undo entry that takes up all the bytes.
#[unsafe(no_mangle)]
pub extern "C" fn ergo_index_decode_undo_entry(
    bytes: &[u8],
    known: &mut bool,
    header: &mut [u8; 32],
    txs: &mut u64,
    boxes: &mut u64,
) -> u8
    ensures { decode_out result (entry known.new header.new txs.new boxes.new)
        ≡ decode_export (entry known.old header.old txs.old boxes.old) (decoded_of bytes.now) }
{
    let decoded = undo::entry::decode(bytes);
    let answer = decoded.answer;
    match answer {
        Ok(()) => {
            let before = decoded.entry;
            let id = before.header;
            *known = before.known;
            *header = id;
            *txs = before.txs;
            *boxes = before.boxes;
            0
        }
        Err(code) => code,
    }
}

// The window that is named, or none.
fn window_of(named: bool, heights: u64) -> Window
    ensures { result ≡ window named heights }
{
    if named {
        Window::Named(heights)
    } else {
        Window::Unnamed
    }
}

// Keeps the heights within the window below the current one; without a named window it is 720.
#[unsafe(no_mangle)]
pub extern "C" fn ergo_index_prune_below_window(
    heights: &mut [u64],
    count: &mut usize,
    capacity: usize,
    current: u64,
    window_named: bool,
    window_heights: u64,
) -> u8
    ensures { prune_out result count.new heights.new ≡ prune_call heights.old count.old capacity current (window window_named window_heights) }
{
    let within = window_of(window_named, window_heights);
    let pruned = undo::prune::prune_below_window(heights, *count, capacity, current, within);
    match pruned {
        Ok(n) => {
            *count = n;
            0
        }
        Err(code) => code,
    }
}

// A load that can be repeated.
#![tactic(auto)]

ghost use Rattle.std.specs.Prelude.{◌≡◌};
ghost use Rattle.load_core.specs.Draw.{source};
ghost use Rattle.load.specs.Generated.{generate_load_of, go_on_of};
ghost use Rattle.ergo_index_load.specs.Load.{load_out, load_export};

use load::Source;

// Writes `count` calls at the front of the output, drawn from the state `from`: how many bytes they took, and the generator after them.
#[unsafe(no_mangle)]
pub extern "C" fn ergo_index_generate_load(
    from: u64,
    count: u64,
    out: &mut [u8],
    written: &mut usize,
    state: &mut u64,
    boxes: &mut u64,
    txs: &mut u64,
) -> u8
    ensures { load_out result written.new (source state.new boxes.new txs.new) out.new
        ≡ load_export written.old (source state.old boxes.old txs.old) (generate_load_of count from out.old) }
{
    let generated = load::generate_load(from, count, out);
    match generated {
        Ok((n, after)) => {
            *written = n;
            *state = after.state;
            *boxes = after.boxes;
            *txs = after.txs;
            0
        }
        Err(code) => code,
    }
}

// Writes `count` calls more, from the generator that an earlier load left, and leaves the one after them.
#[unsafe(no_mangle)]
pub extern "C" fn ergo_index_go_on(
    state: &mut u64,
    boxes: &mut u64,
    txs: &mut u64,
    count: u64,
    out: &mut [u8],
    written: &mut usize,
) -> u8
    ensures { load_out result written.new (source state.new boxes.new txs.new) out.new
        ≡ load_export written.old (source state.old boxes.old txs.old)
        (go_on_of count (source state.old boxes.old txs.old) out.old) }
{
    let before = Source {
        state: *state,
        boxes: *boxes,
        txs: *txs,
    };
    let generated = load::go_on(before, count, out);
    match generated {
        Ok((n, next)) => {
            *written = n;
            *state = next.state;
            *boxes = next.boxes;
            *txs = next.txs;
            0
        }
        Err(code) => code,
    }
}

// Every short history, listed. How many bytes were written goes to the out.
ghost use Rattle.std.specs.Prelude.{◌≡◌};
ghost use Rattle.vlq_core.specs.Writing.{put_bytes};
ghost use Rattle.history_growth.specs.Listing.{histories, bytes_of};
ghost use Rattle.ergo_index_numbers.specs.Numbers.{write_out, write_export};

// Writes every history of at most five calls at the front of the output: 32 if it is too short.
#[unsafe(no_mangle)]
pub extern "C" fn ergo_index_list_histories(out: &mut [u8], written: &mut usize) -> u8
    ensures { write_out result written.new out.new ≡ write_export written.old (put_bytes (bytes_of histories) out.old 0) }
{
    ergo_index_histories::ergo_index_list_histories(out, written)
}

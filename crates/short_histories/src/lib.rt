// Every short history, listed (document 02, U10): all lists of at most five calls for one fresh parent, over the numbers 1 and 2, that keep the history rules and
// in which every call is accepted. Each is a byte of its length and one byte per call, 1 to 6 by rank.
#![tactic(auto)]

ghost use Rattle.std.specs.Prelude.{◌≡◌, ◌≤◌, length};
ghost use Rattle.stores.specs.Stores.{Put};
ghost use Rattle.vlq_core.specs.Writing.{written, put_bytes};
ghost use Rattle.history_growth.specs.Listing.{histories_up_to, histories, bytes_of};

use history_steps::Rank;
use index_types::Wrote;

// The bytes of all histories.
pub const HISTORIES_LENGTH: usize = 2668;

// The most calls of a history.
const MOST_CALLS: u8 = 5;

// Writes the histories of at most n calls at the front of the output.
fn list_up_to(n: u8, out: &mut [u8]) -> usize
    requires { (n ≤ 5) × (length (bytes_of (histories_up_to n)) ≤ length out.old) }
    ensures { Put (bytes_of (histories_up_to n)) out.old 0 result out.new }
{
    let none = history_steps::no_calls();
    if n == 0 {
        return history_growth::grow(0, 0, none, Rank::Flush, none, out, 0);
    }
    let at = list_up_to(n - 1, out);
    history_growth::grow(n, 0, none, Rank::Flush, none, out, at)
}

// Writes every history of at most five calls at the front of the output, shorter ones first: 32 if it is too short.
pub fn list_histories(out: &mut [u8]) -> Wrote
    ensures { written result out.new ≡ put_bytes (bytes_of histories) out.old 0 }
{
    if out.len() < HISTORIES_LENGTH {
        return Err(refusal::OUTPUT_TOO_SHORT);
    }
    Ok(list_up_to(MOST_CALLS, out))
}

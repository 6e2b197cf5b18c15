// The ids of a balance's tokens, 32 bytes each in one array: compared, found, put at a place, and closed up where one leaves.
#![tactic(auto)]

ghost use Rattle.std.specs.Prelude.{◌≡◌, ◌+◌, ◌*◌, ◌<◌, ◌≤◌, length};
ghost use Rattle.stores.specs.Stores.{write};
ghost use Rattle.stores.specs.Equal.{same_bytes};
ghost use Rattle.balance_tokens.specs.Tokens.{id_at, place_of, closed_up};

// Whether the id at place i of a is the one at place j of b. Most differ in the first byte; `==` of arrays tests them all with no call, as that of slices does not.
fn same_id(a: &[u8], i: usize, b: &[u8], j: usize) -> bool
    requires { (i * 32 + 32 ≤ length a.now) × (j * 32 + 32 ≤ length b.now) }
    ensures { result ≡ same_bytes (id_at a.now i) (id_at b.now j) }
{
    let (a, _) = a.as_chunks::<32>();
    let (b, _) = b.as_chunks::<32>();
    if a[i][0] != b[j][0] {
        return false;
    }
    a[i] == b[j]
}

// The first place below count that holds the id at place j of ids, or count.
#[tactic(auto, using(balance_tokens::proofs::IdLaws::place_step, balance_tokens::proofs::IdLaws::place_end))]
pub fn find(table: &[u8], count: usize, ids: &[u8], j: usize) -> usize
    requires { (count * 32 ≤ length table.now) × (j * 32 + 32 ≤ length ids.now) }
    ensures { result ≡ place_of (id_at ids.now j) table.now count }
{
    for i in 0..count {
        if same_id(table, i, ids, j) {
            return i;
        }
    }
    count
}

// Puts the id at place j of ids at place i of table.
pub fn put_id(table: &mut [u8], i: usize, ids: &[u8], j: usize)
    requires { (i * 32 + 32 ≤ length table.old) × (j * 32 + 32 ≤ length ids.now) }
    ensures { table.new ≡ write (i * 32) (id_at ids.now j) table.old }
{
    let q = j * 32;
    let e = q + 32;
    stores::copy_bytes(table, i * 32, &ids[q..e]);
}

// The id at a place of the first count leaves: later ones move up, zeroes follow.
pub fn close_ids(table: &mut [u8], at: usize, count: usize)
    requires { (at < count) × (count * 32 ≤ length table.old) }
    ensures { table.new ≡ closed_up 32 0 at count table.old }
{
    let last = count - 1;
    stores::move_bytes(table, (at + 1) * 32, at * 32, (last - at) * 32);
    stores::clear_bytes(table, last * 32, 32);
}

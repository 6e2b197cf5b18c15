// A record of a key and a row, written at a position of a list.
#![tactic(auto)]

ghost use Rattle.std.specs.Prelude.{◌≡◌, [], ◌∷◌, ◌+◌, ◌/◌, ◌%◌, ◌≤◌, length};
ghost use Rattle.stores.specs.Stores.{write};
ghost use Rattle.records.specs.Records.{record_of};

// Writes a length at a position, in two bytes, the high one first.
fn put_length(dst: &mut [u8], at: usize, n: usize)
    requires { at + 2 ≤ length dst.old }
    ensures { dst.new ≡ write at (n / 256 % 256 ∷ n % 256 ∷ []) dst.old }
{
    let low = at + 1;
    dst[at] = (n / 256 % 256) as u8;
    dst[low] = (n % 256) as u8;
}

// Writes the record of a key and a row at a position.
pub fn store(list: &mut [u8], at: usize, size: usize, key: &[u8], row: &[u8])
    requires { (at + size ≤ length list.old) × (length key.now ≡ 32) × (34 + length row.now ≤ size) }
    ensures { list.new ≡ write at (record_of size key.now row.now) list.old }
{
    let n = row.len();
    let used = 34 + n;
    stores::copy_bytes(list, at, key);
    put_length(list, at + 32, n);
    stores::copy_bytes(list, at + 34, row);
    stores::clear_bytes(list, at + used, size - used);
}

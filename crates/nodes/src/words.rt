// Runs of words in the output.
ghost use Rattle.std.specs.Prelude.{◌≡◌, ◌+◌, ◌-◌, ◌*◌, ◌≤◌, length, replicate};
ghost use Rattle.format.specs.Bytes.{put};
ghost use Rattle.nodes.specs.Nodes.{words};

use fields::primitive::put_u64;

// Writes zeros from one position to another.
pub fn put_zeros(out: &mut [u8], from: usize, to: usize)
    requires { (from ≤ to) × (to ≤ length out.old) }
    ensures { out.new ≡ put out.old from (replicate (to - from) 0) }
{
    out[from..to].fill(0);
}

// Writes keys, and as many values behind e places for keys. One loop, since two of few turns each take longer.
fn copy_entries(out: &mut [u8], at: usize, e: usize, keys: &[u64], values: &[u64])
    requires same { length keys.now ≡ length values.now }
    requires few { (length keys.now ≤ e) × (e ≤ 15) }
    requires e_in_bounds { at + 16 * e ≤ length out.old }
    ensures { out.new
        ≡ put (put out.old at (words (length keys.now) keys.now)) (at + 8 * e) (words (length values.now) values.now) }
{
    let from = at + 8 * e;
    for (j, key) in keys.iter().enumerate() {
        put_u64(out, at + 8 * j, *key);
        put_u64(out, from + 8 * j, values[j]);
    }
}

// Writes a column of e keys and one of e values: those of the lists, then zeros.
pub(crate) fn put_entries(out: &mut [u8], at: usize, e: usize, keys: &[u64], values: &[u64])
    requires same { length keys.now ≡ length values.now }
    requires few { (length keys.now ≤ e) × (e ≤ 15) }
    requires e_in_bounds { at + 16 * e ≤ length out.old }
    ensures { out.new ≡ put (put out.old at (words e keys.now)) (at + 8 * e) (words e values.now) }
{
    copy_entries(out, at, e, keys, values);
    let k = keys.len();
    if k < e {
        put_zeros(out, at + 8 * k, at + 8 * e);
        put_zeros(out, at + 8 * e + 8 * k, at + 16 * e);
    }
}

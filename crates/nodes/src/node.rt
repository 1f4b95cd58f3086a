// The bytes of closed nodes (rkyv's `close_leaf` and `close_inner` in src/collections/btree/map/mod.rs).
ghost use Rattle.std.specs.Prelude.{◌≡◌, ◌+◌, ◌*◌, ◌^◌, ◌≤◌, ◌<◌, length};
ghost use Rattle.format.specs.Layout.{layout_of, pointer, leaf_size, inner_size};
ghost use Rattle.format.specs.Bytes.{le_bytes, put};
ghost use Rattle.format.specs.Tree.{offset_bytes, lesser_bytes, leaf_bytes, inner_bytes};
ghost use Rattle.format.specs.Build.{pairs};
ghost use Rattle.nodes.specs.Nodes.{child_at, words, picked, lessers, slots_in, Within};

use crate::inline_vec::{ChildPos, Slot};
use crate::words::{put_entries, put_zeros};
use fields::primitive::{put_u64, put_uint};
use format::{Layout, Position};
use offsets::rel_ptr::ones;

// Computes the offset that the field at a position stores for a child, in its low bytes; zero if it is refused.
pub fn offset_bits(layout: Layout, field: Position, child: Option<ChildPos>) -> u64
    requires { field.0 < 2 ^ 63 }
    ensures { le_bytes (pointer (layout_of layout)) result ≡ offset_bytes (layout_of layout) field.0 (child_at child) }
{
    let Some(child) = child else {
        return 1;
    };
    let most = ones(layout.width) / 2;
    let from = field.0;
    let to = child.0 as usize;
    if from <= to {
        let ahead = (to - from) as u64;
        if most < ahead {
            return 0;
        }
        return ahead;
    }
    let behind = (from - to - 1) as u64;
    if most < behind {
        return 0;
    }
    0xffff_ffff_ffff_ffff - behind
}

// Closes a leaf of the given entries at a position.
pub fn close_leaf(out: &mut [u8], layout: Layout, at: Position, keys: &[u64], values: &[u64])
    requires same { length keys.now ≡ length values.now }
    requires few { (length keys.now ≤ layout.entries) × (layout.entries ≤ 15) }
    requires leaf_in_bounds { at.0 + leaf_size (layout_of layout) ≤ length out.old }
    ensures { out.new ≡ put out.old at.0 (leaf_bytes (layout_of layout) (pairs keys.now values.now)) }
{
    let p = at.0;
    put_u64(out, p, 0);
    put_entries(out, p + Layout::KEYS, layout.entries, keys, values);
    put_u64(out, p + layout.node(), keys.len() as u64);
}

// Writes the keys and the values at the places of the slots.
fn put_slots(out: &mut [u8], at: usize, keys: &[u64], values: &[u64], slots: &[Slot])
    requires keys_len { (length keys.now ≡ length values.now) × Within (length keys.now) slots.now }
    requires few { length slots.now ≤ 15 }
    requires slots_in_bounds { at + 16 * length slots.now ≤ length out.old }
    ensures { out.new
        ≡ put (put out.old at (words (length slots.now) (picked keys.now slots.now))) (at + 8 * length slots.now)
        (words (length slots.now) (picked values.now slots.now)) }
{
    let from = at + 8 * slots.len();
    for (j, slot) in slots.iter().enumerate() {
        let i = slot.place as usize;
        put_u64(out, at + 8 * j, keys[i]);
        put_u64(out, from + 8 * j, values[i]);
    }
}

// Writes the fields of the lesser children.
fn put_lessers(out: &mut [u8], layout: Layout, at: usize, slots: &[Slot])
    requires few { length slots.now ≤ 15 }
    requires slots_in_bounds { at + pointer (layout_of layout) * length slots.now ≤ length out.old }
    ensures { out.new ≡ put out.old at (lesser_bytes (layout_of layout) at (length slots.now) (lessers slots.now)) }
{
    let size = layout.pointer();
    let mut field = at;
    for slot in slots {
        let bits = offset_bits(layout, Position(field), slot.lesser);
        put_uint(out, field, layout.width, bits);
        field += size;
    }
}

// Closes a full inner node at a position: its slots, and the greater child.
pub fn close_inner(
    out: &mut [u8],
    layout: Layout,
    at: Position,
    keys: &[u64],
    values: &[u64],
    slots: &[Slot],
    greater: Option<ChildPos>,
)
    requires keys_len { (length keys.now ≡ length values.now) × Within (length keys.now) slots.now }
    requires full { (length slots.now ≡ layout.entries) × (layout.entries ≤ 15) }
    requires inner_in_bounds { at.0 + inner_size (layout_of layout) ≤ length out.old }
    ensures { out.new
        ≡ put out.old at.0 (inner_bytes (layout_of layout) at.0 (slots_in keys.now values.now slots.now) (child_at greater)) }
{
    let p = at.0;
    put_u64(out, p, 1);
    put_slots(out, p + Layout::KEYS, keys, values, slots);
    let fields = p + layout.node();
    put_lessers(out, layout, fields, slots);
    let size = layout.pointer();
    let last = fields + size * layout.entries;
    let bits = offset_bits(layout, Position(last), greater);
    put_uint(out, last, layout.width, bits);
    put_zeros(out, last + size, p + layout.inner());
}

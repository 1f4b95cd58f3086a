// What all readers read of an accepted node (rkyv's src/collections/btree/map/mod.rs): where a child's field leads, how many slots a leaf uses, and a
// slot.
ghost use Rattle.std.specs.Prelude.{◌≡◌, ◌+◌, ◌<◌, ◌≤◌, length};
ghost use Rattle.format.specs.Layout.{layout_of, head_size};
ghost use Rattle.format.specs.Node.{child, leaf_count, slot};
ghost use Rattle.format.specs.Readable.{child_at, LeafNode, InnerNode};
ghost use Rattle.format.specs.Written.{out, put};

use fields::primitive::{u64_at, uint_at};
use format::{Entry, Layout, Position};
use offsets::rel_ptr::ones;

// The child that field i of an inner node leads to; the field after the lesser children's is the greater child's. 1 marks an absent child; what other
// bits lack of the bits of -1 is the distance back less one.
pub fn child_at(archive: &[u8], layout: Layout, pos: Position, i: usize) -> Option<Position>
    requires { (layout.entries ≤ 15) × InnerNode (layout_of layout) archive.now pos.0 × (i ≤ layout.entries) }
    ensures { result ≡ child_at (layout_of layout) archive.now (child (layout_of layout) pos.0 i) }
{
    let p = pos.0;
    let width = layout.width;
    let field = p + layout.node() + layout.pointer() * i;
    let bits = uint_at(archive, field, width);
    if bits == 1 {
        return None;
    }
    let back = ones(width) - bits;
    Some(Position(field - 1 - back as usize))
}

// How many slots a leaf uses.
pub fn leaf_len(archive: &[u8], layout: Layout, pos: Position) -> usize
    requires { (layout.entries ≤ 15) × LeafNode (layout_of layout) archive.now pos.0 }
    ensures { result ≡ leaf_count (layout_of layout) archive.now pos.0 }
{
    let p = pos.0;
    let width = layout.width;
    uint_at(archive, p + layout.node(), width) as usize
}

pub fn slot(archive: &[u8], layout: Layout, pos: Position, i: usize) -> Entry
    requires { (layout.entries ≤ 15) × (pos.0 + head_size (layout_of layout) ≤ length archive.now) × (i < layout.entries) }
    ensures { result ≡ slot (layout_of layout) archive.now pos.0 i }
{
    let p = pos.0;
    let at = p + layout.values() + 8 * i;
    Entry {
        key: u64_at(archive, p + Layout::KEYS + 8 * i),
        value: u64_at(archive, at),
        position: Position(at),
    }
}

// Writes slot i at index `at` of both lists, where both have room.
pub fn visit_key_value_raw(
    archive: &[u8],
    layout: Layout,
    pos: Position,
    i: usize,
    keys: &mut [u64],
    values: &mut [u64],
    at: usize,
) -> usize
    requires { (layout.entries ≤ 15) × (pos.0 + head_size (layout_of layout) ≤ length archive.now) × (i < layout.entries) }
    ensures { out keys.new values.new result
        ≡ put (slot (layout_of layout) archive.now pos.0 i) (out keys.old values.old at) }
{
    if at < keys.len() && at < values.len() {
        let e = slot(archive, layout, pos, i);
        keys[at] = e.key;
        values[at] = e.value;
        return at + 1;
    }
    at
}

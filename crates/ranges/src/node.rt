// A range over the nodes of an archive whose keys ascend (rkyv's src/collections/btree/map/iter.rs), by recursion down the nodes that can have keys
// from a least to a greatest. rkyv's `key_satisfies_lower` and `key_is_past_upper` are comparisons with these two numbers.
ghost use Rattle.std.specs.Prelude.{◌≡◌, ◌+◌, ◌^◌, ◌<◌, ◌≤◌, length, get_or};
ghost use Rattle.format.specs.Layout.{layout_of, server, nested, head_size};
ghost use Rattle.format.specs.Bytes.{le_at};
ghost use Rattle.format.specs.Node.{key_at, leaf_count};
ghost use Rattle.format.specs.Entries.{slots, list_at};
ghost use Rattle.format.specs.Certify.{Ascending};
ghost use Rattle.format.specs.Range.{from_to, held, select};
ghost use Rattle.format.specs.Readable.{Node, LeafNode};
ghost use Rattle.format.specs.Written.{out};
ghost use Rattle.ranges.specs.Taken.{ranged};

use btree::node::{child_at, leaf_len, visit_key_value_raw};
use fields::primitive::u64_at;
use format::{Layout, Position};

// Counts a leaf's slots with keys from `least` to `greatest`, and writes them where both lists have room; stops at the first key past them. `start` is
// the number that match before it.
fn range_leaf(
    archive: &[u8],
    layout: Layout,
    pos: Position,
    least: u64,
    greatest: u64,
    keys: &mut [u64],
    values: &mut [u64],
    start: usize,
) -> usize
    requires entries_bound { layout.entries ≤ 15 }
    requires leaf_node { LeafNode (layout_of layout) archive.now pos.0 }
    requires ascending { Ascending (slots (layout_of layout) archive.now pos.0 (leaf_count (layout_of layout) archive.now pos.0) 0) }
    requires pos_bound { start
        + length (select (held (from_to least greatest)) (slots (layout_of layout) archive.now pos.0 (leaf_count (layout_of layout) archive.now pos.0) 0))
        < 2 ^ 64 }
    ensures { out keys.new values.new result
        ≡ ranged least greatest (slots (layout_of layout) archive.now pos.0 (leaf_count (layout_of layout) archive.now pos.0) 0)
        (out keys.old values.old start) }
{
    let p = pos.0;
    let n = leaf_len(archive, layout, pos);
    let mut at = start;
    for i in 0..n {
        let k = u64_at(archive, p + Layout::KEYS + 8 * i);
        if greatest < k {
            return at;
        }
        if least <= k {
            let _ = visit_key_value_raw(archive, layout, pos, i, keys, values, at);
            at += 1;
        }
    }
    at
}

// Reads the key of slot i of an inner node. The greatest of all keys stands for the slot after the greater child, which is not there.
fn key_after(archive: &[u8], layout: Layout, pos: Position, i: usize) -> u64
    requires { (layout.entries ≤ 15) × (pos.0 + head_size (layout_of layout) ≤ length archive.now) }
    ensures { (i < layout.entries → result ≡ le_at 8 archive.now (key_at (layout_of layout) pos.0 i))
        × (layout.entries ≤ i → result + 1 ≡ 2 ^ 64) }
{
    if i >= layout.entries {
        return u64::MAX;
    }
    let p = pos.0;
    u64_at(archive, p + Layout::KEYS + 8 * i)
}

// Does the same from an inner node on. It passes over each child whose slot is below `least`, and over all that follows the child of the first slot
// past `greatest`. A leaf takes no call of this function.
fn range_inner(
    archive: &[u8],
    layout: Layout,
    pos: Position,
    least: u64,
    greatest: u64,
    keys: &mut [u64],
    values: &mut [u64],
    start: usize,
) -> usize
    requires entries_bound { (layout.entries ≤ 15) × Node (layout_of layout) server archive.now pos.0 × (get_or archive.now pos.0 0 ≡ 0 → ⊥) }
    requires ascending { Ascending (list_at (layout_of layout) archive.now (nested server) pos.0) }
    requires pos_bound { start + length (select (held (from_to least greatest)) (list_at (layout_of layout) archive.now (nested server) pos.0)) < 2 ^ 64 }
    ensures { out keys.new values.new result
        ≡ ranged least greatest (list_at (layout_of layout) archive.now (nested server) pos.0)
        (out keys.old values.old start) }
{
    let mut at = start;
    // Not `0..=layout.entries`, whose end in memory makes a range slower by a tenth.
    for i in 0..layout.entries + 1 {
        let key = key_after(archive, layout, pos, i);
        if key < least {
            continue;
        }
        if let Some(q) = child_at(archive, layout, pos, i) {
            let p = q.0;
            if archive[p] == 0 {
                at = range_leaf(archive, layout, q, least, greatest, keys, values, at);
            } else {
                at = range_inner(archive, layout, q, least, greatest, keys, values, at);
            }
        }
        if i < layout.entries {
            if greatest < key {
                return at;
            }
            let _ = visit_key_value_raw(archive, layout, pos, i, keys, values, at);
            at += 1;
        }
    }
    at
}

// Does the same from any node on.
pub(crate) fn range_node(
    archive: &[u8],
    layout: Layout,
    pos: Position,
    least: u64,
    greatest: u64,
    keys: &mut [u64],
    values: &mut [u64],
) -> usize
    requires entries_bound { layout.entries ≤ 15 }
    requires node { Node (layout_of layout) server archive.now pos.0 }
    requires ascending { Ascending (list_at (layout_of layout) archive.now (nested server) pos.0) }
    ensures { out keys.new values.new result
        ≡ ranged least greatest (list_at (layout_of layout) archive.now (nested server) pos.0)
        (out keys.old values.old 0) }
{
    let p = pos.0;
    if archive[p] == 0 {
        return range_leaf(archive, layout, pos, least, greatest, keys, values, 0);
    }
    range_inner(archive, layout, pos, least, greatest, keys, values, 0)
}

// The walk in an archived B-tree map (rkyv's src/collections/btree/map/mod.rs), from a node that the check has accepted.
ghost use Rattle.std.specs.Prelude.{◌≡◌, ◌+◌, ◌*◌, ◌≤◌, get_or, length, map};
ghost use Rattle.std.specs.List.{range_with_len};
ghost use Rattle.std.proofs.lemmas.List.Edits.{sets};
ghost use Rattle.format.specs.Layout.{layout_of, head_size, server, nested};
ghost use Rattle.format.specs.Bytes.{le_at};
ghost use Rattle.format.specs.Node.{leaf_count};
ghost use Rattle.format.specs.Entries.{slots, list_at};
ghost use Rattle.format.specs.Readable.{Node, LeafNode};
ghost use Rattle.format.specs.Written.{out, fill, walked};

use btree::node::{child_at, leaf_len, visit_key_value_raw};
use fields::primitive::u64_at;
use format::{Common, Layout, Position};

// Reads N numbers from position p of the archive on.
#[inline(always)]
fn read<const N: usize>(archive: &[u8], p: usize) -> [u64; N]
    requires { p + 8 * N ≤ length archive.now }
    ensures { result ≡ map (λ k. le_at 8 archive.now (p + 8 * k)) (range_with_len 0 N) }
{
    let mut numbers = [0; N];
    for i in 0..N {
        numbers[i] = u64_at(archive, p + 8 * i);
    }
    numbers
}

// Stores N numbers in the list, from index `start` on.
#[inline(always)]
fn store<const N: usize>(list: &mut [u64], start: usize, numbers: [u64; N])
    requires { start + N ≤ length list.old }
    ensures { list.new ≡ sets list.old start numbers.entry }
{
    for i in 0..N {
        list[start + i] = numbers[i];
    }
}

// Writes a node's first N slots at index `start` of both lists, and returns the index past them. All keys are read before the first is stored, and then
// the values, with no test between, so that the compiler can copy several at once.
#[inline(always)]
fn put_slots<const N: usize>(
    archive: &[u8],
    layout: Layout,
    pos: Position,
    keys: &mut [u64],
    values: &mut [u64],
    start: usize,
) -> usize
    requires node { (layout.entries ≤ 15) × (pos.0 + head_size (layout_of layout) ≤ length archive.now) × (N ≤ layout.entries) }
    requires room { (start + N ≤ length keys.old) × (start + N ≤ length values.old) }
    ensures { out keys.new values.new result
        ≡ fill (slots (layout_of layout) archive.now pos.0 N 0) (out keys.old values.old start) }
{
    let p = pos.0;
    store(keys, start, read::<N>(archive, p + Layout::KEYS));
    store(values, start, read::<N>(archive, p + layout.values()));
    start + N
}

// Writes a leaf's entries from index `start` of both lists on, as many as both have room for, and returns the index past them. It is inlined since a call
// for each leaf is slower.
#[inline(always)]
fn visit_leaf(
    archive: &[u8],
    layout: Layout,
    pos: Position,
    keys: &mut [u64],
    values: &mut [u64],
    start: usize,
) -> usize
    requires { (layout.entries ≤ 15) × LeafNode (layout_of layout) archive.now pos.0 }
    ensures { out keys.new values.new result
        ≡ fill (slots (layout_of layout) archive.now pos.0 (leaf_count (layout_of layout) archive.now pos.0) 0)
        (out keys.old values.old start) }
{
    let n = leaf_len(archive, layout, pos);
    let room = keys.len().min(values.len());
    if n == Common::ENTRIES && start <= room && n <= room - start {
        return put_slots::<{ Common::ENTRIES }>(archive, layout, pos, keys, values, start);
    }
    let mut at = start;
    for i in 0..n {
        at = visit_key_value_raw(archive, layout, pos, i, keys, values, at);
    }
    at
}

// Writes the entries from the inner node at `pos` on, from index `start` of both lists until the shorter is full, and returns the index past what
// is written. The field after the lesser children's is the greater child's, which no slot follows. A leaf takes no call of this function.
fn visit_raw(
    archive: &[u8],
    layout: Layout,
    pos: Position,
    keys: &mut [u64],
    values: &mut [u64],
    start: usize,
) -> usize
    requires { (layout.entries ≤ 15) × Node (layout_of layout) server archive.now pos.0 × (get_or archive.now pos.0 0 ≡ 0 → ⊥) }
    ensures { out keys.new values.new result
        ≡ fill (list_at (layout_of layout) archive.now (nested server) pos.0) (out keys.old values.old start) }
{
    let room = keys.len().min(values.len());
    if room <= start {
        return start;
    }
    let mut at = start;
    for i in 0..=layout.entries {
        if let Some(child) = child_at(archive, layout, pos, i) {
            let p = child.0;
            if archive[p] == 0 {
                at = visit_leaf(archive, layout, child, keys, values, at);
            } else {
                at = visit_raw(archive, layout, child, keys, values, at);
            }
        }
        if i < layout.entries {
            at = visit_key_value_raw(archive, layout, pos, i, keys, values, at);
        }
    }
    at
}

// Writes the entries from the root on, from the front of both lists until the shorter is full, and returns how many are written.
pub fn visit(
    archive: &[u8],
    layout: Layout,
    root: Position,
    keys: &mut [u64],
    values: &mut [u64],
) -> usize
    requires { (layout.entries ≤ 15) × Node (layout_of layout) server archive.now root.0 }
    ensures { out keys.new values.new result
        ≡ walked (list_at (layout_of layout) archive.now (nested server) root.0) keys.old values.old }
{
    let p = root.0;
    if archive[p] == 0 {
        return visit_leaf(archive, layout, root, keys, values, 0);
    }
    visit_raw(archive, layout, root, keys, values, 0)
}

// The lookup in an archived B-tree map (rkyv's src/collections/btree/map/mod.rs), from a node that the check has accepted.
ghost use Rattle.std.specs.Prelude.{◌≡◌, ◌+◌, ◌*◌, ◌≤◌, length};
ghost use Rattle.format.specs.Layout.{layout_of, server, nested};
ghost use Rattle.format.specs.Lookup.{lookup_at, bytes_of, place_of};
ghost use Rattle.format.specs.Readable.{Node};
ghost use Rattle.lookups.specs.Seek.{seek_at};

use btree::node::{child_at, leaf_len, slot};
use fields::primitive::u64_at;
use format::{Entry, Layout, Position};

// Finds the key among a node's first n slots: its slot, or the first slot with a greater key. Where all keys are less, that is the place past them.
fn seek_slot(archive: &[u8], pos: Position, key: u64, n: usize) -> Result<usize, usize>
    requires { pos.0 + 8 + 8 * n ≤ length archive.now }
    ensures { result ≡ seek_at archive.now pos.0 key n 0 }
{
    let p = pos.0;
    for i in 0..n {
        let k = u64_at(archive, p + Layout::KEYS + 8 * i);
        if key < k {
            return Err(i);
        }
        if key == k {
            return Ok(i);
        }
    }
    Err(n)
}

// Goes down one path from the node at `pos`. It is inlined so that the sizes of a layout that the caller names are constants.
#[inline(always)]
fn search(archive: &[u8], layout: Layout, pos: Position, key: u64) -> Option<Entry>
    requires { (layout.entries ≤ 15) × Node (layout_of layout) server archive.now pos.0 }
    ensures { result ≡ lookup_at (layout_of layout) archive.now key (nested server) pos.0 }
{
    let mut current = pos;
    loop {
        let p = current.0;
        if archive[p] == 0 {
            let n = leaf_len(archive, layout, current);
            return match seek_slot(archive, current, key, n) {
                Ok(i) => Some(slot(archive, layout, current, i)),
                Err(_) => None,
            };
        }
        match seek_slot(archive, current, key, layout.entries) {
            Ok(i) => return Some(slot(archive, layout, current, i)),
            Err(i) => current = child_at(archive, layout, current, i)?,
        }
    }
}

// The entry with that key from the node at `pos` on, by one path down, whether or not keys ascend.
pub fn get_key_value_raw(archive: &[u8], layout: Layout, pos: Position, key: u64) -> Option<Entry>
    requires { (layout.entries ≤ 15) × Node (layout_of layout) server archive.now pos.0 }
    ensures { result ≡ lookup_at (layout_of layout) archive.now key (nested server) pos.0 }
{
    if layout.is_common() {
        search(archive, Layout::COMMON, pos, key)
    } else {
        search(archive, layout, pos, key)
    }
}

// The eight bytes of the value with that key, as a part of the archive; where there is none, the empty part at its start.
pub fn get_bytes<'a>(archive: &'a [u8], layout: Layout, pos: Position, key: u64) -> &'a [u8]
    requires { (layout.entries ≤ 15) × Node (layout_of layout) server archive.now pos.0 }
    ensures place { result.ref_ptr
        ≡ place_of archive.entry.ref_ptr (lookup_at (layout_of layout) archive.now key (nested server) pos.0) }
    ensures bytes { result.now ≡ bytes_of archive.now (lookup_at (layout_of layout) archive.now key (nested server) pos.0) }
{
    let Some(e) = get_key_value_raw(archive, layout, pos, key) else {
        return &archive[0..0];
    };
    let at = e.position;
    let p = at.0;
    &archive[p..p + 8]
}

// The nodes of the tree (rkyv's `serialize_from_ordered_iter` in src/collections/btree/map/mod.rs), subtree by subtree as the definition `fill` goes:
// the calls hold the open inner nodes.
ghost use Rattle.std.specs.Prelude.{◌≡◌, ◌+◌, ◌<◌, ◌≤◌, min, length};
ghost use Rattle.format.specs.Layout.{layout_of, leaf_size};
ghost use Rattle.serialize.specs.Wrote.{most, child_there, after, CanWrite, WroteLeaf, WroteTree};

use crate::given::Given;
use format::{Layout, Position};
use nodes::inline_vec::{ChildPos, OpenInner, Slot};
use nodes::node::{close_inner, close_leaf};

// The next entry, the entries that the last level still takes, and the next position.
#[derive(Clone, Copy)]
pub struct Place {
    pub next: usize,
    pub last: usize,
    pub at: Position,
}

// Goes behind a node of n bytes that is closed at a place, and returns where it is.
fn closed(here: &mut Place, n: usize) -> Option<ChildPos>
    requires { (here.old.at.0 ≤ most) × (n ≤ 376) }
    ensures child { result ≡ child_there here.old.at.0 }
    ensures place { here.new ≡ after here.old n }
{
    let child = ChildPos(here.at.0 as u32);
    here.at = Position(here.at.0 + n);
    Some(child)
}

// Writes a leaf of k entries.
fn leaf(out: &mut [u8], given: Given<'_>, here: &mut Place, k: usize) -> Option<ChildPos>
    requires k_le_entries { (k ≤ given.layout.entries) × (here.old.next + k ≤ length given.keys.now) }
    requires leaf_in_bounds { here.old.at.0 + leaf_size (layout_of given.layout) ≤ min (length out.old) most }
    ensures { WroteLeaf given.entry k here.old out.old result here.new out.new }
{
    let i = here.next;
    let next = i + k;
    close_leaf(
        out,
        given.layout,
        here.at,
        &given.keys[i..next],
        &given.values[i..next],
    );
    here.next = next;
    closed(here, given.layout.leaf())
}

// Writes a subtree with h levels above the last one. If the last level takes no more, the leaves stand one level higher. A call for each leaf is slower,
// so the code stands in the loop of `node_over`.
#[cycle(serialize_from_ordered_iter_inner)]
#[inline(always)]
pub fn serialize_from_ordered_iter(
    out: &mut [u8],
    given: Given<'_>,
    h: usize,
    here: &mut Place,
) -> Option<ChildPos>
    requires can_write { CanWrite given h here.old (length out.old) }
    ensures { WroteTree given.entry h here.old out.old result here.new out.new }
{
    let entries = given.layout.entries;
    match h {
        0 if here.last == 0 => None,
        0 => {
            let k = here.last.min(entries);
            here.last -= k;
            leaf(out, given, here, k)
        }
        1 if here.last == 0 => leaf(out, given, here, entries),
        _ => inner(out, given, h, here),
    }
}

// Writes a subtree with an inner node at its top. If the compiler knows that h is 1, the loop over the leaves is faster.
#[cycle(serialize_from_ordered_iter_inner)]
fn inner(out: &mut [u8], given: Given<'_>, h: usize, here: &mut Place) -> Option<ChildPos>
    requires h_nonzero { (0 < h) × (h ≡ 1 → 0 < here.old.last) }
    requires can_write { CanWrite given h here.old (length out.old) }
    ensures { WroteTree given.entry h here.old out.old result here.new out.new }
{
    if h == 1 {
        return node_over(out, given, 1, here);
    }
    node_over(out, given, h, here)
}

// Writes an inner node behind its children: a subtree before each of its entries, and one after the last. The place is a copy, which stays in registers.
#[cycle(serialize_from_ordered_iter_inner)]
#[inline(always)]
fn node_over(out: &mut [u8], given: Given<'_>, h: usize, here: &mut Place) -> Option<ChildPos>
    requires h_nonzero { (0 < h) × (h ≡ 1 → 0 < here.old.last) }
    requires can_write { CanWrite given h here.old (length out.old) }
    ensures { WroteTree given.entry h here.old out.old result here.new out.new }
{
    let entries = given.layout.entries;
    let mut slots = [Slot::EMPTY; Layout::MOST];
    let mut open = OpenInner::new(&mut slots);
    let mut p = *here;
    for _ in 0..entries {
        let lesser = serialize_from_ordered_iter(out, given, h - 1, &mut p);
        let place = p.next as u32;
        open = open.take(Slot { place, lesser });
        p.next += 1;
    }
    let greater = serialize_from_ordered_iter(out, given, h - 1, &mut p);
    close_inner(
        out,
        given.layout,
        p.at,
        given.keys,
        given.values,
        &open.slots[..entries],
        greater,
    );
    *here = p;
    closed(here, given.layout.inner())
}

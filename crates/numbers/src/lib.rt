// The quick way of the check from the record on, at every layout: the root, and the instance of `quick`'s pass that has the layout's sizes. As of `quick`,
// a reader can skip this crate.
#![tactic(auto)]

ghost use Rattle.std.specs.Prelude.{◌≡◌, ◌+◌, ◌%◌, ◌≤◌, length, IfSome};
ghost use Rattle.format.specs.Layout.{layout_of, server, bytes, pointer, inner_size, node_align};
ghost use Rattle.quick.specs.Sizes.{width_for, numbered};
ghost use Rattle.quick.specs.Quick.{Below, Root};
ghost use Rattle.numbers.specs.Numbers.{InnerBack};

use fields::primitive::uint_at;
use format::{Layout, Width};
use offsets::rel_ptr::ones;
use quick::quick_node;

// Finds the inner node to which the record's field leads back, if it is in its place.
pub fn inner_root(archive: &[u8], layout: Layout, at: usize) -> Option<usize>
    requires { (layout.entries ≤ 15) × (at + pointer (layout_of layout) ≤ length archive.now) }
    ensures { IfSome result (λ p. InnerBack (layout_of layout) archive.now at p) }
{
    let width = layout.width;
    let all = ones(width) as usize;
    let offset = uint_at(archive, at, width) as usize;
    let back = all - offset;
    if offset <= back {
        return None;
    }
    if at <= back {
        return None;
    }
    let p = at - 1 - back;
    if at < p + layout.inner() {
        return None;
    }
    if p % Layout::NODE_ALIGN != 0 {
        return None;
    }
    if archive[p] != 1 {
        return None;
    }
    Some(p)
}

// Calls the `quick_node` that has the entries a node as a constant. A layout with other than 3 to 15 of them is refused unread.
fn node_of<const W: usize>(archive: &[u8], entries: usize, at: usize, depth: usize) -> Option<usize>
    requires { (bytes (width_for W) ≡ W) × (at % node_align ≡ 0) × (at + inner_size (numbered W entries) ≤ length archive.now)
        × (length archive.now ≤ server.longest) }
    ensures { IfSome result (λ n. Below (numbered W entries) archive.now depth 0 at n) }
{
    match entries {
        3 => quick_node::<W, 3>(archive, 0, at, depth),
        4 => quick_node::<W, 4>(archive, 0, at, depth),
        5 => quick_node::<W, 5>(archive, 0, at, depth),
        6 => quick_node::<W, 6>(archive, 0, at, depth),
        7 => quick_node::<W, 7>(archive, 0, at, depth),
        8 => quick_node::<W, 8>(archive, 0, at, depth),
        9 => quick_node::<W, 9>(archive, 0, at, depth),
        10 => quick_node::<W, 10>(archive, 0, at, depth),
        11 => quick_node::<W, 11>(archive, 0, at, depth),
        12 => quick_node::<W, 12>(archive, 0, at, depth),
        13 => quick_node::<W, 13>(archive, 0, at, depth),
        14 => quick_node::<W, 14>(archive, 0, at, depth),
        15 => quick_node::<W, 15>(archive, 0, at, depth),
        _ => None,
    }
}

// Calls the `quick_node` that has the layout's sizes as constants.
#[tactic(auto, unfolding(quick::specs::Sizes::width_for))]
fn node_at(archive: &[u8], layout: Layout, at: usize, depth: usize) -> Option<usize>
    requires { (at % node_align ≡ 0) × (at + inner_size (layout_of layout) ≤ length archive.now) × (length archive.now ≤ server.longest) }
    ensures { IfSome result (λ n. Below (layout_of layout) archive.now depth 0 at n) }
{
    let width = layout.width;
    match width {
        Width::Two => node_of::<2>(archive, layout.entries, at, depth),
        Width::Four => node_of::<4>(archive, layout.entries, at, depth),
        Width::Eight => node_of::<8>(archive, layout.entries, at, depth),
    }
}

// Counts the entries of the inner node to which the record's field leads and of all below it.
pub fn quick_root(archive: &[u8], layout: Layout, at: usize, depth: usize) -> Option<usize>
    requires { (layout.entries ≤ 15) × (at + pointer (layout_of layout) ≤ length archive.now) × (length archive.now ≤ server.longest) }
    ensures { IfSome result (λ n. Root (layout_of layout) archive.now depth at n) }
{
    if depth == 0 {
        return None;
    }
    let p = inner_root(archive, layout, at)?;
    node_at(archive, layout, p, depth - 1)
}

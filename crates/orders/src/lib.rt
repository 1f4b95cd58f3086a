// The quick way of certification from the limits and the record on, at every layout: the root, and the instance of `ordered`'s pass that has the layout's
// sizes. As of `ordered`, a reader can skip this crate.
#![tactic(auto)]

ghost use Rattle.std.specs.Prelude.{◌≡◌, ◌+◌, ◌≤◌, ◌<◌, length, None, IfSome};
ghost use Rattle.format.specs.Layout.{layout_of, Limits as GivenLimits, limits_of, server, bytes, inner_size};
ghost use Rattle.format.specs.Refusal.{gives};
ghost use Rattle.format.specs.Check.{counted};
ghost use Rattle.format.specs.Certify.{certify};
ghost use Rattle.quick.specs.Sizes.{width_for, numbered};
ghost use Rattle.ordered.specs.Order.{KeysBelow};

use fields::primitive::uint_at;
use format::{Layout, Limits, Width};
use numbers::inner_root;
use ordered::{Keys, node_keys};

// Calls the `node_keys` that has the entries a node as a constant. A layout with other than 3 to 15 of them is refused unread.
fn node_of<const W: usize>(archive: &[u8], entries: usize, at: usize, depth: usize) -> Keys
    requires { (bytes (width_for W) ≡ W) × (at + inner_size (numbered W entries) ≤ length archive.now)
        × (length archive.now ≤ server.longest) }
    ensures { 0 < result.entries → KeysBelow (numbered W entries) archive.now depth 0 at None result.entries result.last }
{
    match entries {
        3 => node_keys::<W, 3>(archive, 0, at, depth, None),
        4 => node_keys::<W, 4>(archive, 0, at, depth, None),
        5 => node_keys::<W, 5>(archive, 0, at, depth, None),
        6 => node_keys::<W, 6>(archive, 0, at, depth, None),
        7 => node_keys::<W, 7>(archive, 0, at, depth, None),
        8 => node_keys::<W, 8>(archive, 0, at, depth, None),
        9 => node_keys::<W, 9>(archive, 0, at, depth, None),
        10 => node_keys::<W, 10>(archive, 0, at, depth, None),
        11 => node_keys::<W, 11>(archive, 0, at, depth, None),
        12 => node_keys::<W, 12>(archive, 0, at, depth, None),
        13 => node_keys::<W, 13>(archive, 0, at, depth, None),
        14 => node_keys::<W, 14>(archive, 0, at, depth, None),
        15 => node_keys::<W, 15>(archive, 0, at, depth, None),
        _ => Keys {
            entries: 0,
            last: 0,
        },
    }
}

// Calls the `node_keys` that has the layout's sizes as constants.
#[tactic(auto, unfolding(quick::specs::Sizes::width_for))]
fn node_at(archive: &[u8], layout: Layout, at: usize, depth: usize) -> Keys
    requires { (at + inner_size (layout_of layout) ≤ length archive.now) × (length archive.now ≤ server.longest) }
    ensures { 0 < result.entries → KeysBelow (layout_of layout) archive.now depth 0 at None result.entries result.last }
{
    let width = layout.width;
    match width {
        Width::Two => node_of::<2>(archive, layout.entries, at, depth),
        Width::Four => node_of::<4>(archive, layout.entries, at, depth),
        Width::Eight => node_of::<8>(archive, layout.entries, at, depth),
    }
}

// Reads the recorded count of an archive that is certified under limits of this depth.
fn root_keys(archive: &[u8], layout: Layout, depth: usize) -> Option<usize>
    requires { (3 ≤ layout.entries) × (layout.entries ≤ 15) × (2 < depth) × (length archive.now ≤ server.longest) }
    ensures { (M : GivenLimits) → M.depth ≡ depth → length archive.now ≤ M.longest
        → IfSome result (λ n. counted (certify (layout_of layout) M archive.now) ≡ gives n) }
{
    let length = archive.len();
    let record = layout.record();
    if length < record {
        return None;
    }
    let at = length - record;
    let w = layout.pointer();
    if at % w != 0 {
        return None;
    }
    let p = inner_root(archive, layout, at)?;
    let root = node_at(archive, layout, p, depth - 3);
    if root.entries == 0 {
        return None;
    }
    let width = layout.width;
    let count = uint_at(archive, at + w, width) as usize;
    if root.entries != count {
        return None;
    }
    Some(count)
}

// Reads the recorded count of an archive that is certified. With a depth under 3 no inner node may stand below the record.
pub fn quick_certify(archive: &[u8], layout: Layout, limits: Limits) -> Option<usize>
    ensures { IfSome result (λ n. counted (certify (layout_of layout) (limits_of limits) archive.now) ≡ gives n) }
{
    let most = limits.counted();
    if archive.len() > most.longest {
        return None;
    }
    if most.depth < 3 {
        return None;
    }
    if !layout.in_range() {
        return None;
    }
    root_keys(archive, layout, most.depth)
}

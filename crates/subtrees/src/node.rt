// The check of a node and of all below it (`check_node_rel_ptr` and what it calls in rkyv's src/collections/btree/map/mod.rs). Its
// `check_node_entries` has no counterpart: any eight bytes are a key, and any eight are a value.
ghost use Rattle.std.specs.Prelude.{◌≡◌, ◌+◌, ◌-◌, ◌^◌, ◌<◌, ◌≤◌, length};
ghost use Rattle.format.specs.Layout.{layout_of, pointer, head_size, inner_size, node_align};
ghost use Rattle.format.specs.Node.{leaf, inner, child};
ghost use Rattle.format.specs.Check.{enter, check_node};
ghost use Rattle.subtrees.specs.Entered.{entered};
ghost use Rattle.subtrees.specs.Subtree.{Held};
ghost use Rattle.subtrees.specs.Answers.{node_of, Enters};

use crate::archive::{
    SubtreeRange, check_subtree_ptr, in_subtree, pop_subtree_range, push_subtree_range,
};
use fields::primitive::uint_at;
use format::{Layout, Position, Refusal};
use offsets::rel_ptr::{is_invalid_at, rel_ptr_at};

// What is known of a node and of all below it: the entries, and the position that the node ends at.
#[derive(Clone, Copy)]
pub struct Subtree {
    pub entries: usize,
    pub end: Position,
}

fn check_leaf_node(
    archive: &[u8],
    layout: Layout,
    range: SubtreeRange,
    depth: usize,
    at: Position,
) -> Result<Subtree, Refusal>
    requires { (layout.entries ≤ 15) × (range.end.0 ≤ length archive.now)
        × Held range.start.0 range.end.0 at.0 (head_size (layout_of layout)) node_align }
    ensures { node_of result ≡ enter (layout_of layout) archive.now range.end.0 range.start.0 at.0 leaf
        (entered (layout_of layout) archive.now (depth - 1) range.start.0 at.0 leaf) }
{
    let leaf_size = layout.leaf();
    in_subtree(range, depth, at, leaf_size, Layout::NODE_ALIGN)?;
    let from = at.0;
    let width = layout.width;
    let entries = uint_at(archive, from + layout.node(), width) as usize;
    if entries > layout.entries {
        return Err(Refusal::InvalidLength);
    }
    let end = Position(from + leaf_size);
    Ok(Subtree { entries, end })
}

// What a field leads to, before an inner node's children are checked: a leaf, or an inner node's position.
#[derive(Clone, Copy)]
pub enum Entered {
    Leaf(Subtree),
    Inner(Position),
}

// Follows a field and reads the kind. A leaf is checked whole; of an inner node the first bytes stand in their place.
pub fn enter_node(
    archive: &[u8],
    layout: Layout,
    range: SubtreeRange,
    depth: usize,
    field: Position,
) -> Result<Entered, Refusal>
    requires { (layout.entries ≤ 15) × (range.end.0 ≤ length archive.now) × (field.0 + pointer (layout_of layout) ≤ length archive.now) }
    ensures { Enters (layout_of layout) archive.now range depth field result }
{
    let Some(at) = rel_ptr_at(archive, layout, field) else {
        return Err(Refusal::InvalidSubtreePointer);
    };
    check_subtree_ptr(range, at, layout.node(), Layout::NODE_ALIGN)?;
    let from = at.0;
    match archive[from] {
        0 => {
            let leaf = check_leaf_node(archive, layout, range, depth, at)?;
            Ok(Entered::Leaf(leaf))
        }
        1 => Ok(Entered::Inner(at)),
        _ => Err(Refusal::InvalidKind),
    }
}

// The field of child i of an inner node. It lies in the node.
fn child_field(layout: Layout, at: Position, i: usize) -> Position
    requires { (i ≤ layout.entries) × (layout.entries ≤ 15) × (at.0 + inner_size (layout_of layout) < 2 ^ 63) }
    ensures { (result.0 ≡ child (layout_of layout) at.0 i) × (result.0 + pointer (layout_of layout) ≤ at.0 + inner_size (layout_of layout)) }
{
    let from = at.0;
    Position(from + layout.node() + layout.pointer() * i)
}

// The children stand before the node, each after the one before it.
#[cycle(check_inner_node_check_node_rel_ptr)]
pub fn check_inner_node(
    archive: &[u8],
    layout: Layout,
    range: SubtreeRange,
    depth: usize,
    at: Position,
) -> Result<Subtree, Refusal>
    requires { (layout.entries ≤ 15) × (range.end.0 ≤ length archive.now)
        × Held range.start.0 range.end.0 at.0 (head_size (layout_of layout)) node_align }
    ensures { node_of result ≡ enter (layout_of layout) archive.now range.end.0 range.start.0 at.0 inner
        (entered (layout_of layout) archive.now (depth - 1) range.start.0 at.0 inner) }
{
    let inner_size = layout.inner();
    in_subtree(range, depth, at, inner_size, Layout::NODE_ALIGN)?;
    let end = Position(at.0 + inner_size);
    let mut inside = push_subtree_range(range, at);
    let mut entries = layout.entries;
    for i in 0..layout.entries {
        let field = child_field(layout, at, i);
        if is_invalid_at(archive, layout, field) {
            continue;
        }
        let lesser = check_node_rel_ptr(archive, layout, inside, depth - 1, field)?;
        entries += lesser.entries;
        inside = pop_subtree_range(inside, lesser.end);
    }
    let field = child_field(layout, at, layout.entries);
    if !is_invalid_at(archive, layout, field) {
        let greater = check_node_rel_ptr(archive, layout, inside, depth - 1, field)?;
        entries += greater.entries;
    }
    Ok(Subtree { entries, end })
}

// The node that a field leads to, with the depth that is left before it is entered. It is inlined so that a leaf takes no call.
#[cycle(check_inner_node_check_node_rel_ptr)]
#[inline(always)]
fn check_node_rel_ptr(
    archive: &[u8],
    layout: Layout,
    range: SubtreeRange,
    depth: usize,
    field: Position,
) -> Result<Subtree, Refusal>
    requires { (layout.entries ≤ 15) × (range.end.0 ≤ length archive.now) × (field.0 + pointer (layout_of layout) ≤ length archive.now) }
    ensures { node_of result ≡ check_node (layout_of layout) archive.now (depth - 1) range.end.0 range.start.0 field.0 }
{
    match enter_node(archive, layout, range, depth, field)? {
        Entered::Leaf(leaf) => Ok(leaf),
        Entered::Inner(at) => check_inner_node(archive, layout, range, depth, at),
    }
}

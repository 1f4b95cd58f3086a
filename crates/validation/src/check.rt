// The check of a whole archive (`verify` in rkyv's src/collections/btree/map/mod.rs): the record, the quick way through the nodes, and where that does
// not know, the check of the nodes with refusals.
ghost use Rattle.std.specs.Prelude.{◌≡◌, ◌+◌, ◌-◌, ◌≤◌, ◌<◌, length};
ghost use Rattle.format.specs.Layout.{layout_of, Limits as GivenLimits, limits_of, server, record_size, pointer};
ghost use Rattle.format.specs.Refusal.{answer_of};
ghost use Rattle.format.specs.Check.{counted, recorded, check_node, check_root, check_archive};

use fields::primitive::uint_at;
use format::{Layout, Limits, Position, Refusal};
use numbers::quick_root;
use subtrees::archive::{SubtreeRange, in_subtree, push_subtree_range};
use subtrees::node::{Entered, check_inner_node, enter_node};

// The entries of the node that the record's field leads to and of all below it. The quick way tells no refusal: where it does not know, the nodes are
// checked one by one.
fn root_entries(
    archive: &[u8],
    layout: Layout,
    range: SubtreeRange,
    depth: usize,
    field: Position,
) -> Result<usize, Refusal>
    requires { (layout.entries ≤ 15) × (length archive.now ≤ server.longest) × (field.0 + pointer (layout_of layout) ≤ length archive.now)
        × (range.start.0 ≡ 0) × (range.end.0 ≡ field.0) × (0 < depth) }
    ensures { answer_of result ≡ counted (check_node (layout_of layout) archive.now (depth - 1) range.end.0 range.start.0 field.0) }
{
    if let Some(entries) = quick_root(archive, layout, field.0, depth - 1) {
        return Ok(entries);
    }
    match enter_node(archive, layout, range, depth, field)? {
        Entered::Leaf(leaf) => Ok(leaf.entries),
        Entered::Inner(node) => {
            let root = check_inner_node(archive, layout, range, depth, node)?;
            Ok(root.entries)
        }
    }
}

// The record at a position, whose nodes stand in the range, where the depth is what the record leaves.
fn verify(
    archive: &[u8],
    layout: Layout,
    range: SubtreeRange,
    depth: usize,
    at: Position,
) -> Result<usize, Refusal>
    requires { (layout.entries ≤ 15) × (length archive.now ≤ server.longest) × (record_size (layout_of layout) ≤ length archive.now)
        × (at.0 ≡ length archive.now - record_size (layout_of layout))
        × (range.start.0 ≡ 0) × (range.end.0 ≡ at.0) × (0 < depth) }
    ensures { (M : GivenLimits) → depth ≡ M.depth - 1 → answer_of result ≡ counted
        (check_root (layout_of layout) M archive.now (recorded (layout_of layout) archive.now)) }
{
    let from = at.0;
    let width = layout.width;
    let count = uint_at(archive, from + layout.pointer(), width) as usize;
    if count == 0 {
        return Ok(0);
    }
    let entries = root_entries(archive, layout, range, depth, at)?;
    if entries != count {
        return Err(Refusal::EntriesLengthMismatch);
    }
    Ok(count)
}

// The recorded count, or 24, or the first refusal of 1 to 7.
pub fn check(archive: &[u8], layout: Layout, limits: Limits) -> Result<usize, Refusal>
    ensures { answer_of result ≡ counted (check_archive (layout_of layout) (limits_of limits) archive.now) }
{
    if !layout.in_range() {
        return Err(Refusal::EntriesOutOfRange);
    }
    let most = limits.counted();
    let record = layout.record();
    let length = archive.len();
    if length > most.longest {
        return Err(Refusal::ArchiveTooLong);
    }
    if length < record {
        return Err(Refusal::InvalidSubtreePointer);
    }
    let whole = SubtreeRange {
        start: Position(0),
        end: Position(length),
    };
    let at = Position(length - record);
    // The record aligns to its offset.
    in_subtree(whole, most.depth, at, record, layout.pointer())?;
    verify(
        archive,
        layout,
        push_subtree_range(whole, at),
        most.depth - 1,
        at,
    )
}

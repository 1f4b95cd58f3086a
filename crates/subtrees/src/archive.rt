// The range of an archive that a node may stand in (rkyv's src/validation/archive): it ends at a node while the node's children are checked, and
// starts at the node's end afterwards.
ghost use Rattle.std.specs.Prelude.{◌≡◌, ◌<◌};
ghost use Rattle.subtrees.specs.Subtree.{placed, opened, pushed, popped};

use format::{Position, Refusal};

// From start up to, not including, end.
#[derive(Clone, Copy)]
pub struct SubtreeRange {
    pub start: Position,
    pub end: Position,
}

// Whether size bytes at a position lie in the range, on their alignment.
pub(crate) fn check_subtree_ptr(
    range: SubtreeRange,
    at: Position,
    size: usize,
    align: usize,
) -> Result<(), Refusal>
    requires { 0 < align }
    ensures { result ≡ placed range.start.0 range.end.0 at.0 size align }
{
    let from = at.0;
    let start = range.start.0;
    let end = range.end.0;
    if from < start || end < from || end - from < size {
        return Err(Refusal::InvalidSubtreePointer);
    }
    if from % align != 0 {
        return Err(Refusal::UnalignedPointer);
    }
    Ok(())
}

// The same, and whether the bytes may be entered with this depth left.
pub fn in_subtree(
    range: SubtreeRange,
    depth: usize,
    at: Position,
    size: usize,
    align: usize,
) -> Result<(), Refusal>
    requires { 0 < align }
    ensures { result ≡ opened range.start.0 range.end.0 depth at.0 size align }
{
    check_subtree_ptr(range, at, size, align)?;
    if depth <= 1 {
        return Err(Refusal::ExceededMaximumSubtreeDepth);
    }
    Ok(())
}

// The range of the children of the node at root.
pub fn push_subtree_range(range: SubtreeRange, root: Position) -> SubtreeRange
    ensures { result ≡ pushed range root }
{
    let start = range.start;
    SubtreeRange {
        start: start,
        end: root,
    }
}

// The range after a node that ends at a position.
pub(crate) fn pop_subtree_range(range: SubtreeRange, end: Position) -> SubtreeRange
    ensures { result ≡ popped range end }
{
    let last = range.end;
    SubtreeRange {
        start: end,
        end: last,
    }
}

// What certification asks beyond the check, in one pass over the accepted nodes: whether one is hollow, and whether the keys strictly ascend.
#![tactic(auto)]

ghost use Rattle.std.specs.Prelude.{◌≡◌, ◌+◌, ◌<◌, ◌≤◌, ◌||◌, length, get_or};
ghost use Rattle.format.specs.Layout.{layout_of, server, nested, head_size};
ghost use Rattle.format.specs.Node.{kind, slot};
ghost use Rattle.format.specs.Entries.{list_at};
ghost use Rattle.format.specs.Certify.{hollow, hollow_at, ascends};
ghost use Rattle.format.specs.Readable.{Node, InnerNode};
ghost use Rattle.certification.specs.Survey.{after, step, Passed};

use btree::node::{child_at, leaf_len};
use fields::primitive::u64_at;
use format::{Layout, Position};
use offsets::rel_ptr::is_invalid_at;

// The keys passed: the last, and whether each was above the one before.
#[derive(Clone, Copy)]
struct KeyOrder {
    last: Option<u64>,
    ascends: bool,
}

// The order of the keys passed, and whether a hollow node is known.
#[derive(Clone, Copy)]
struct Pass {
    order: KeyOrder,
    hollow: bool,
}

// What certification asks beyond the check: whether a node is hollow, and whether the keys strictly ascend.
#[derive(Clone, Copy)]
pub struct Survey {
    pub hollow: bool,
    pub ascends: bool,
}

// Notes one key more.
#[tactic(auto, unfolding(crate::specs::Survey::after))]
fn note_key(order: KeyOrder, key: u64) -> KeyOrder
    ensures { result ≡ after key order }
{
    let follows = order.last.is_none_or(|last| last < key);
    KeyOrder {
        last: Some(key),
        ascends: order.ascends && follows,
    }
}

// Notes the key of slot i.
#[tactic(auto, unfolding(format::specs::Node::slot))]
fn note_slot(archive: &[u8], layout: Layout, pos: Position, i: usize, order: KeyOrder) -> KeyOrder
    requires { (pos.0 + head_size (layout_of layout) ≤ length archive.now) × (i < layout.entries) }
    ensures { result ≡ step (slot (layout_of layout) archive.now pos.0 i) order }
{
    let p = pos.0;
    note_key(order, u64_at(archive, p + Layout::KEYS + 8 * i))
}

// Notes the slots of a leaf, which is hollow if it has none.
fn note_leaf(archive: &[u8], layout: Layout, pos: Position, seen: Pass) -> Pass
    requires { (layout.entries ≤ 15) × Node (layout_of layout) server archive.now pos.0 × (get_or archive.now pos.0 0 ≡ 0) }
    ensures { Passed (layout_of layout) archive.now pos.0 seen result }
{
    let n = leaf_len(archive, layout, pos);
    if n == 0 {
        return Pass {
            hollow: true,
            ..seen
        };
    }
    let mut order = seen.order;
    for i in 0..n {
        order = note_slot(archive, layout, pos, i, order);
    }
    Pass { order, ..seen }
}

// Raises the flag for hollow nodes if an inner node's first child is absent.
#[tactic(auto, using(crate::proofs::Surveys::own))]
fn note_hollow(archive: &[u8], layout: Layout, pos: Position, known: bool) -> bool
    requires { (layout.entries ≤ 15) × InnerNode (layout_of layout) archive.now pos.0 }
    ensures { result ≡ (known || hollow (layout_of layout) archive.now pos.0 (kind (layout_of layout) archive.now pos.0)) }
{
    let p = pos.0;
    known || is_invalid_at(archive, layout, Position(p + layout.node()))
}

// Notes an inner node and the nodes below it. The field after the lesser children's is the greater child's, which no slot follows. A leaf takes no call
// of this function.
fn certify_inner(archive: &[u8], layout: Layout, pos: Position, seen: Pass) -> Pass
    requires { (layout.entries ≤ 15) × Node (layout_of layout) server archive.now pos.0 × (get_or archive.now pos.0 0 ≡ 0 → ⊥) }
    ensures { Passed (layout_of layout) archive.now pos.0 seen result }
{
    let mut order = seen.order;
    let mut hollow = note_hollow(archive, layout, pos, seen.hollow);
    for i in 0..=layout.entries {
        if let Some(q) = child_at(archive, layout, pos, i) {
            let p = q.0;
            // Each arm takes its answer apart: where one struct holds both answers, its copies through memory slow the pass.
            if archive[p] == 0 {
                let below = note_leaf(archive, layout, q, Pass { order, hollow });
                order = below.order;
                hollow = below.hollow;
            } else {
                let below = certify_inner(archive, layout, q, Pass { order, hollow });
                order = below.order;
                hollow = below.hollow;
            }
        }
        if i < layout.entries {
            order = note_slot(archive, layout, pos, i, order);
        }
    }
    Pass { order, hollow }
}

// Notes the nodes from the root on. A hollow node anywhere comes before keys that do not ascend, so neither ends the pass.
pub fn certify(archive: &[u8], layout: Layout, root: Position) -> Survey
    requires { (layout.entries ≤ 15) × Node (layout_of layout) server archive.now root.0 }
    ensures { (result.hollow ≡ hollow_at (layout_of layout) archive.now (nested server) root.0)
        × (result.ascends ≡ ascends (list_at (layout_of layout) archive.now (nested server) root.0)) }
{
    let start = Pass {
        order: KeyOrder {
            last: None,
            ascends: true,
        },
        hollow: false,
    };
    let p = root.0;
    let pass = if archive[p] == 0 {
        note_leaf(archive, layout, root, start)
    } else {
        certify_inner(archive, layout, root, start)
    };
    Survey {
        hollow: pass.hollow,
        ascends: pass.order.ascends,
    }
}

// The quick way of the check, one pass for every layout: with W bytes a number and E entries a node as constants. It gives no refusal: what passes is
// accepted, and of the rest nothing is known, so that the check with refusals decides. No promise of another crate needs it: a reader can skip this one.
#![tactic(auto)]

ghost use Rattle.std.specs.Prelude.{◌≡◌, ℕ, suc, ◌+◌, ◌-◌, ◌%◌, ◌≤◌, ◌<◌, ◌^◌, length, IfSome};
ghost use Rattle.format.specs.Layout.{width_of, bytes, sign_bits, inner_size, node_align, server};
ghost use Rattle.format.specs.Bytes.{le_at};
ghost use Rattle.format.specs.Readable.{LeadsTo};
ghost use Rattle.quick.specs.Sizes.{width_for, numbered, Sizes};
ghost use Rattle.quick.specs.Quick.{Passes, Below};

use fields::primitive::uint_at;
use format::{Layout, Width};

// A child's entries with all below it, and where the range starts after it.
#[derive(Clone, Copy)]
pub struct Passed {
    pub entries: usize,
    pub next: usize,
}

// Gives the width of W bytes.
#[tactic(auto, unfolding(crate::specs::Sizes::width_for))]
fn width<const W: usize>() -> Width
    ensures { width_of result ≡ width_for W }
{
    if W == 2 {
        return Width::Two;
    }
    if W == 8 {
        return Width::Eight;
    }
    Width::Four
}

// Reads a number of W bytes.
pub fn number_at<const W: usize>(s: &[u8], p: usize) -> usize
    requires { (bytes (width_for W) ≡ W) × (p + W ≤ length s.now) }
    ensures { (result ≡ le_at (bytes (width_for W)) s.now p) × (result < 2 ^ suc (sign_bits (width_for W))) }
{
    uint_at(s, p, width::<W>()) as usize
}

// Gives the bits of the offset -1.
pub fn ones<const W: usize>() -> usize
    ensures { result ≡ 2 ^ suc (sign_bits (width_for W)) - 1 }
{
    offsets::rel_ptr::ones(width::<W>()) as usize
}

// Finds the node to which a field leads back, if it is aligned and not before the range's start. The distance back less one is what the offset's bits
// lack of those of -1. Only in two bytes can a positive offset lack less than the archive is long.
pub fn place_of<const W: usize, const E: usize>(
    archive: &[u8],
    start: usize,
    field: usize,
) -> Option<usize>
    requires { Sizes W E × (start ≤ field) × (field + W ≤ length archive.now) × (length archive.now ≤ server.longest) }
    ensures { IfSome result (λ p. LeadsTo (numbered W E) archive.now field p × (start ≤ p) × (p < field) × (p % node_align ≡ 0)) }
{
    let back = ones::<W>() - number_at::<W>(archive, field);
    if W == 2 && ones::<W>() / 2 < back {
        return None;
    }
    if field - start <= back {
        return None;
    }
    let p = field - 1 - back;
    if p % Layout::NODE_ALIGN != 0 {
        return None;
    }
    Some(p)
}

// Gives the size of an inner node.
pub fn inner_of<const W: usize, const E: usize>() -> usize
    requires { Sizes W E }
    ensures { (result ≡ inner_size (numbered W E)) × (result ≤ 376) }
{
    (8 + 16 * E + W * (E + 1) + 7) / 8 * 8
}

// Counts the entries of an inner node in its place and of its children, if these are leaves right before it, in order. Most inner nodes are of this kind.
// The loop is unrolled and no call is left in it, so that every place is the node's and a constant, and every offset a constant.
fn quick_leaves<const W: usize, const E: usize>(
    archive: &[u8],
    start: usize,
    at: usize,
) -> Option<usize>
    requires { Sizes W E × (at % node_align ≡ 0) × (at + inner_size (numbered W E) ≤ length archive.now) × (start ≤ at) }
    ensures { IfSome result (λ n. (d : ℕ) → 0 < d → Below (numbered W E) archive.now d start at n) }
{
    let leaf = 16 + 16 * E;
    if at < start + leaf * (E + 1) {
        return None;
    }
    let mut p = at - leaf * (E + 1);
    let mut total = E;
    for i in 0..E + 1 {
        let field = at + (8 + 16 * E) + W * i;
        if number_at::<W>(archive, field) != ones::<W>() - (field - 1 - p) {
            return None;
        }
        if archive[p] != 0 {
            return None;
        }
        let count = number_at::<W>(archive, p + (8 + 16 * E));
        if count > E {
            return None;
        }
        total += count;
        p += leaf;
    }
    Some(total)
}

// Passes the child that a field leads to, with all below it: absent, a leaf or an inner node in its place.
#[cycle(quick_child_quick_node)]
fn quick_child<const W: usize, const E: usize>(
    archive: &[u8],
    start: usize,
    end: usize,
    field: usize,
    depth: usize,
) -> Option<Passed>
    requires { Sizes W E × (start ≤ end) × (end ≤ field) × (field + W ≤ length archive.now) × (length archive.now ≤ server.longest)
        × (0 < depth) }
    ensures { IfSome result (λ c. Passes (numbered W E) archive.now depth start end field c) }
{
    if number_at::<W>(archive, field) == 1 {
        return Some(Passed {
            entries: 0,
            next: start,
        });
    }
    let p = place_of::<W, E>(archive, start, field)?;
    if archive[p] == 0 {
        let after = p + (8 + 16 * E);
        if end < after + 8 {
            return None;
        }
        let entries = number_at::<W>(archive, after);
        if entries > E {
            return None;
        }
        return Some(Passed {
            entries,
            next: after + 8,
        });
    }
    if archive[p] != 1 {
        return None;
    }
    let next = p + inner_of::<W, E>();
    if end < next {
        return None;
    }
    let entries = quick_node::<W, E>(archive, start, p, depth - 1)?;
    Some(Passed { entries, next })
}

// Counts the entries of an inner node in its place and of all below it, when `depth` nodes may be nested.
#[cycle(quick_child_quick_node)]
pub fn quick_node<const W: usize, const E: usize>(
    archive: &[u8],
    start: usize,
    at: usize,
    depth: usize,
) -> Option<usize>
    requires { Sizes W E × (at % node_align ≡ 0) × (at + inner_size (numbered W E) ≤ length archive.now)
        × (length archive.now ≤ server.longest) × (start ≤ at) }
    ensures { IfSome result (λ n. Below (numbered W E) archive.now depth start at n) }
{
    if depth == 0 {
        return None;
    }
    let leaves = quick_leaves::<W, E>(archive, start, at);
    if leaves.is_some() {
        return leaves;
    }
    let first = at + (8 + 16 * E);
    let mut from = start;
    let mut total = E;
    for i in 0..E + 1 {
        let child = quick_child::<W, E>(archive, from, at, first + W * i, depth)?;
        total += child.entries;
        from = child.next;
    }
    Some(total)
}

// The quick way of certification, one pass for every layout: the check, the order of the keys and the hollow nodes, with W bytes a number and E entries a
// node as constants. What passes it is certified, and of the rest nothing is known, so that the check and `certification` decide. No promise of another
// crate needs it: a reader can skip this one.
#![tactic(auto)]

ghost use Rattle.std.specs.Prelude.{◌≡◌, ◌+◌, ◌-◌, ◌*◌, ◌≤◌, ◌<◌, length, IfSome};
ghost use Rattle.format.specs.Layout.{server, keys_from, leaf_size, inner_size};
ghost use Rattle.quick.specs.Sizes.{numbered, Sizes};
ghost use Rattle.ordered.specs.Order.{key_in, Rise, NextKey, LeafKeys, ChildKeys, KeysBelow};

use fields::primitive::u64_at;
use format::Layout;
use quick::{inner_of, number_at, place_of};

// A child's entries with all below it, where the range starts after it, and the last key up to its end.
#[derive(Clone, Copy)]
pub struct Passed {
    pub entries: usize,
    pub next: usize,
    pub last: u64,
}

// The entries of a node and of all below it, and the last key. 0 entries stand for None: an Option of the two is returned through memory, 4 % slower.
#[derive(Clone, Copy)]
pub struct Keys {
    pub entries: usize,
    pub last: u64,
}

// Reads key i of a node, if it is above the key before it.
fn key_above(archive: &[u8], p: usize, i: usize, before: Option<u64>) -> Option<u64>
    requires { p + keys_from + 8 * (i + 1) ≤ length archive.now }
    ensures { IfSome result (λ key. (key ≡ key_in archive.now p i) × IfSome before (λ last. last < key)) }
{
    let key = u64_at(archive, p + Layout::KEYS + 8 * i);
    if let Some(last) = before {
        if key <= last {
            return None;
        }
    }
    Some(key)
}

// Reads the last of the first n keys of a node, if they ascend, from above the key before them. With i from 0 on, each key is one load at every layout.
fn last_key(archive: &[u8], p: usize, n: usize, before: Option<u64>) -> Option<u64>
    requires { (p + keys_from + 8 * n ≤ length archive.now) × (0 < n) }
    ensures { IfSome result (λ last. Rise archive.now p n before × (last ≡ key_in archive.now p (n - 1))) }
{
    let mut last = key_above(archive, p, 0, before)?;
    for i in 0..n - 1 {
        last = key_above(archive, p, i + 1, Some(last))?;
    }
    Some(last)
}

// Passes a leaf in its place, after the key before it.
fn leaf_keys<const W: usize, const E: usize>(
    archive: &[u8],
    p: usize,
    before: Option<u64>,
) -> Option<Passed>
    requires { Sizes W E × (p + leaf_size (numbered W E) ≤ length archive.now) }
    ensures { IfSome result (λ c. LeafKeys (numbered W E) archive.now p before c) }
{
    let after = p + (8 + 16 * E);
    let entries = number_at::<W>(archive, after);
    if entries == 0 {
        return None;
    }
    if entries > E {
        return None;
    }
    let last = last_key(archive, p, entries, before)?;
    Some(Passed {
        entries,
        next: after + 8,
        last,
    })
}

// Passes the child that a field leads to, with all below it, after the key before it: absent, a leaf or an inner node in its place.
#[cycle(child_keys_node_keys)]
fn child_keys<const W: usize, const E: usize>(
    archive: &[u8],
    start: usize,
    end: usize,
    field: usize,
    depth: usize,
    before: Option<u64>,
) -> Option<Passed>
    requires { Sizes W E × (start ≤ end) × (end ≤ field) × (field + W ≤ length archive.now) × (length archive.now ≤ server.longest)
        × (0 < depth) }
    ensures { IfSome result (λ c. ChildKeys (numbered W E) archive.now depth start end field before c) }
{
    if number_at::<W>(archive, field) == 1 {
        return Some(Passed {
            entries: 0,
            next: start,
            last: before?,
        });
    }
    let p = place_of::<W, E>(archive, start, field)?;
    if archive[p] == 0 {
        if end < p + (16 + 16 * E) {
            return None;
        }
        return leaf_keys::<W, E>(archive, p, before);
    }
    if archive[p] != 1 {
        return None;
    }
    let next = p + inner_of::<W, E>();
    if end < next {
        return None;
    }
    let below = node_keys::<W, E>(archive, start, p, depth - 1, before);
    if below.entries == 0 {
        return None;
    }
    Some(Passed {
        entries: below.entries,
        next,
        last: below.last,
    })
}

// Reads the key of slot i of an inner node, if it is above the one before it. No slot follows the greater child, and the key before stays the last.
fn next_key<const E: usize>(archive: &[u8], at: usize, i: usize, last: u64) -> Option<u64>
    requires { at + keys_from + 8 * E ≤ length archive.now }
    ensures { IfSome result (λ key. NextKey archive.now E at i last key) }
{
    if i >= E {
        return Some(last);
    }
    key_above(archive, at, i, Some(last))
}

// Passes an inner node in its place with all below it, when `depth` nodes may be nested, after the key before it.
#[cycle(child_keys_node_keys)]
pub fn node_keys<const W: usize, const E: usize>(
    archive: &[u8],
    start: usize,
    at: usize,
    depth: usize,
    before: Option<u64>,
) -> Keys
    requires { Sizes W E × (start ≤ at) × (at + inner_size (numbered W E) ≤ length archive.now) × (length archive.now ≤ server.longest) }
    ensures { 0 < result.entries → KeysBelow (numbered W E) archive.now depth start at before result.entries result.last }
{
    let none = Keys {
        entries: 0,
        last: 0,
    };
    if depth == 0 {
        return none;
    }
    let first = at + (8 + 16 * E);
    if number_at::<W>(archive, first) == 1 {
        return none;
    }
    let mut from = start;
    let mut entries = E;
    let mut last = before;
    for i in 0..E + 1 {
        let child = child_keys::<W, E>(archive, from, at, first + W * i, depth, last);
        let Some(passed) = child else {
            return none;
        };
        let Some(greatest) = next_key::<E>(archive, at, i, passed.last) else {
            return none;
        };
        entries += passed.entries;
        from = passed.next;
        last = Some(greatest);
    }
    Keys {
        entries,
        last: last.unwrap(),
    }
}

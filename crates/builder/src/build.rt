// The build of an archive from keys and values: its refusals, the zeros behind the header, the nodes and the record.
ghost use Rattle.std.specs.Prelude.{◌≡◌, ◌+◌, ◌≤◌, length};
ghost use Rattle.format.specs.Layout.{layout_of, record_size};
ghost use Rattle.format.specs.Bytes.{put};
ghost use Rattle.format.specs.Build.{tree_of, record_bytes, behind, pairs, rises, build, build_length, out_after};
ghost use Rattle.nodes.specs.Nodes.{child_at};
ghost use Rattle.builder.specs.Size.{Named, Planned};
ghost use Rattle.format.specs.Refusal.{answer_of};

use crate::size::{Plan, plan_of};
use fields::primitive::put_uint;
use format::{Layout, Position, Refusal};
use nodes::inline_vec::ChildPos;
use nodes::node::offset_bits;
use nodes::words::put_zeros;
use serialize::given::Given;
use serialize::map::{Place, serialize_from_ordered_iter};

// The most entries of an archive, and the longest header in bytes.
const MOST_ENTRIES: usize = 40000;

const LONGEST_HEADER: usize = 4096;

// Tells whether each key is above the one before it, four at a time where there are as many: `is_sorted_by` is slower.
fn ascending(keys: &[u64]) -> bool
    ensures { result ≡ rises keys.now }
{
    let n = keys.len();
    let mut i: usize = 0;
    while 1 < n - i {
        if 4 < n - i {
            let a = keys[i];
            let b = keys[i + 1];
            let c = keys[i + 2];
            let d = keys[i + 3];
            if a < b && b < c && c < d && d < keys[i + 4] {
                i += 4;
                continue;
            }
        }
        if keys[i + 1] <= keys[i] {
            return false;
        }
        i += 1;
    }
    true
}

// Writes the record (rkyv's `resolve_from_len`): the root's offset and the count.
fn resolve_from_len(out: &mut [u8], layout: Layout, at: Position, root: Option<ChildPos>, n: usize)
    requires { at.0 + record_size (layout_of layout) ≤ length out.old }
    ensures { out.new ≡ put out.old at.0 (record_bytes (layout_of layout) at.0 (child_at root) n) }
{
    let width = layout.width;
    let offset = offset_bits(layout, at, root);
    let p = at.0;
    put_uint(out, p, width, offset);
    put_uint(out, p + layout.pointer(), width, n as u64);
}

// Writes zeros behind the header, the nodes and the record. A call would copy the given entries once more.
#[inline(always)]
fn put_archive(out: &mut [u8], given: Given<'_>, header: usize, p: Plan)
    requires named { Named (layout_of given.layout) (length given.keys.now) }
    requires header_bound { (header ≤ 4096) × Planned (layout_of given.layout) (length given.keys.now) header p × (p.end ≤ length out.old) }
    ensures { out.new
        ≡ put out.old header
        (behind (layout_of given.entry.layout) header
        (tree_of (layout_of given.entry.layout) (pairs given.entry.keys.now given.entry.values.now)) (length given.entry.keys.now)) }
{
    put_zeros(out, header, p.first);
    let mut here = Place {
        next: 0,
        last: p.last,
        at: Position(p.first),
    };
    let root = serialize_from_ordered_iter(out, given, p.above, &mut here);
    resolve_from_len(out, given.layout, here.at, root, p.entries);
}

// Writes the given entries as an archive behind the first `header` bytes of the output, which stay.
pub fn build(
    out: &mut [u8],
    layout: Layout,
    header: usize,
    keys: &[u64],
    values: &[u64],
) -> Result<usize, Refusal>
    ensures answer { answer_of result
        ≡ build (layout_of layout) keys.now values.now header (length out.old) }
    ensures bytes { out.new
        ≡ out_after (layout_of layout) keys.now values.now header out.old }
{
    if !layout.in_range() {
        return Err(Refusal::EntriesOutOfRange);
    }
    let n = keys.len();
    if n != values.len() {
        return Err(Refusal::IteratorLengthMismatch);
    }
    if MOST_ENTRIES < n {
        return Err(Refusal::TooManyEntries);
    }
    if !ascending(keys) {
        return Err(Refusal::GivenKeysNotAscending);
    }
    if LONGEST_HEADER < header {
        return Err(Refusal::HeaderTooLong);
    }
    let p = plan_of(layout, n, header);
    let end = p.end;
    if out.len() < end {
        return Err(Refusal::OutputTooShort);
    }
    if !p.fits {
        return Err(Refusal::OffsetOverflow);
    }
    let given = Given {
        layout,
        keys,
        values,
    };
    put_archive(out, given, header, p);
    Ok(end)
}

// Computes how long the output has to be for so many entries behind a header.
pub fn build_length(layout: Layout, entries: usize, header: usize) -> Result<usize, Refusal>
    ensures { answer_of result ≡ build_length (layout_of layout) entries header }
{
    if !layout.in_range() {
        return Err(Refusal::EntriesOutOfRange);
    }
    if MOST_ENTRIES < entries {
        return Err(Refusal::TooManyEntries);
    }
    if LONGEST_HEADER < header {
        return Err(Refusal::HeaderTooLong);
    }
    let p = plan_of(layout, entries, header);
    if !p.fits {
        return Err(Refusal::OffsetOverflow);
    }
    Ok(p.end)
}

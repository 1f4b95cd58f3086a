// The readers of a whole archive, at a layout and under limits: each checks or certifies it first.
#![tactic(auto)]

ghost use Rattle.std.specs.Prelude.{◌≡◌, ◌-◌, ◌≤◌, length};
ghost use Rattle.format.specs.Layout.{layout_of, limits_of, record_size};
ghost use Rattle.format.specs.Refusal.{answer_of};
ghost use Rattle.format.specs.RelPtr.{at, target};
ghost use Rattle.format.specs.Check.{counted};
ghost use Rattle.format.specs.Certify.{certify};
ghost use Rattle.format.specs.Readable.{Down};
ghost use Rattle.format.specs.Calls.{lookup_call, bytes_call, place_call, walk_call, walk_keys, walk_values, range_call, range_keys, range_values};
ghost use Rattle.lookups.specs.Many.{many_call, many_values};

use fields::primitive::uint_at;
use format::{Entry, Layout, Limits, Matched, Position, Refusal, Walk};
use lookups::look_up_all;
use lookups::map::{get_bytes, get_key_value_raw};
use offsets::rel_ptr::ones;
use orders::quick_certify;
use ranges::iter::range_with;
use std::ops::Bound;
use validation::check::check;
use walks::map::visit;

// The root of an accepted archive that has entries: what the bits of the record's offset lack of those of -1 is the distance less one.
fn root_of(archive: &[u8], layout: Layout) -> Position
    requires { (record_size (layout_of layout) ≤ length archive.now)
        × Down (layout_of layout) archive.now (length archive.now - record_size (layout_of layout))
        (length archive.now - record_size (layout_of layout)) }
    ensures { target (layout_of layout) archive.now (length archive.now - record_size (layout_of layout)) ≡ at result.0 }
{
    let record = archive.len() - layout.record();
    let width = layout.width;
    let back = ones(width) - uint_at(archive, record, width);
    Position(record - 1 - back as usize)
}

// The check, and then what certification asks beyond it.
fn certify_checked(archive: &[u8], layout: Layout, limits: Limits) -> Result<usize, Refusal>
    ensures { answer_of result ≡ counted (certify (layout_of layout) (limits_of limits) archive.now) }
{
    let count = check(archive, layout, limits)?;
    if count == 0 {
        return Ok(0);
    }
    let found = certification::certify(archive, layout, root_of(archive, layout));
    if found.hollow {
        return Err(Refusal::HollowNode);
    }
    if found.ascends {
        return Ok(count);
    }
    Err(Refusal::KeysNotAscending)
}

// The recorded count, or 24, or the first fault of 1 to 9. If the quick way knows the count, nothing is left to ask.
pub fn certify(archive: &[u8], layout: Layout, limits: Limits) -> Result<usize, Refusal>
    ensures { answer_of result ≡ counted (certify (layout_of layout) (limits_of limits) archive.now) }
{
    if let Some(count) = quick_certify(archive, layout, limits) {
        return Ok(count);
    }
    certify_checked(archive, layout, limits)
}

// The entry that rkyv's search finds.
pub fn lookup(
    archive: &[u8],
    layout: Layout,
    limits: Limits,
    key: u64,
) -> Result<Option<Entry>, Refusal>
    ensures { answer_of result ≡ lookup_call (layout_of layout) (limits_of limits) archive.now key }
{
    match check(archive, layout, limits)? {
        0 => Ok(None),
        _ => {
            let root = root_of(archive, layout);
            Ok(get_key_value_raw(archive, layout, root, key))
        }
    }
}

// The eight bytes of the value that a lookup finds, as a part of the archive, or the empty part at its start.
pub fn lookup_bytes<'a>(archive: &'a [u8], layout: Layout, limits: Limits, key: u64) -> &'a [u8]
    ensures place { result.ref_ptr ≡ place_call (layout_of layout) (limits_of limits) archive.now archive.entry.ref_ptr key }
    ensures bytes { result.now ≡ bytes_call (layout_of layout) (limits_of limits) archive.now key }
{
    let Ok(count) = check(archive, layout, limits) else {
        return &archive[0..0];
    };
    if count == 0 {
        return &archive[0..0];
    }
    get_bytes(archive, layout, root_of(archive, layout), key)
}

// Writes keys and values in the order of `visit` until the shorter list is full.
pub fn walk(
    archive: &[u8],
    layout: Layout,
    limits: Limits,
    keys: &mut [u64],
    values: &mut [u64],
) -> Result<Walk, Refusal>
    ensures answer { answer_of result ≡ walk_call (layout_of layout) (limits_of limits) archive.now keys.old values.old }
    ensures keys { keys.new
        ≡ walk_keys (layout_of layout) (limits_of limits) archive.now keys.old values.old }
    ensures values { values.new
        ≡ walk_values (layout_of layout) (limits_of limits) archive.now keys.old values.old }
{
    let count = check(archive, layout, limits)?;
    if count == 0 {
        return Ok(Walk {
            written: 0,
            count: 0,
        });
    }
    let root = root_of(archive, layout);
    let written = visit(archive, layout, root, keys, values);
    Ok(Walk { written, count })
}

// Looks up keys after one check and stores each value that is found at the place of its key. The number of keys found.
pub fn look_up_many(
    archive: &[u8],
    layout: Layout,
    limits: Limits,
    keys: &[u64],
    values: &mut [u64],
) -> Result<usize, Refusal>
    ensures answer { answer_of result ≡ many_call (layout_of layout) (limits_of limits) archive.now keys.now values.old }
    ensures values { values.new
        ≡ many_values (layout_of layout) (limits_of limits) archive.now keys.now values.old }
{
    if check(archive, layout, limits)? == 0 {
        return Ok(0);
    }
    let root = root_of(archive, layout);
    Ok(look_up_all(archive, layout, root, keys, values))
}

// Of a certified archive, writes keys and values of the entries that meet both bounds until the shorter list is full, and counts them all.
pub fn range(
    archive: &[u8],
    layout: Layout,
    limits: Limits,
    lower: Bound<u64>,
    upper: Bound<u64>,
    keys: &mut [u64],
    values: &mut [u64],
) -> Result<Matched, Refusal>
    ensures answer { answer_of result
        ≡ range_call (layout_of layout) (limits_of limits) archive.now lower upper keys.old values.old }
    ensures keys { keys.new
        ≡ range_keys (layout_of layout) (limits_of limits) archive.now lower upper keys.old values.old }
    ensures values { values.new
        ≡ range_values (layout_of layout) (limits_of limits) archive.now lower upper keys.old values.old }
{
    let count = certify(archive, layout, limits)?;
    if count == 0 {
        return Ok(Matched {
            written: 0,
            matching: 0,
        });
    }
    let root = root_of(archive, layout);
    Ok(range_with(archive, layout, root, lower, upper, keys, values))
}

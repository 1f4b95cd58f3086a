// The calls of the archived field map. Any bytes, lists, positions, lengths, layouts and limits may be passed: each call answers, or gives a listed
// refusal and leaves what was lent as it was. An archive is built, checked and read at the layout that the caller names: the width of its offsets and
// counts, and the entries a node. Outside 3 to 15 of them every such call is refused by 24. It is checked and read under limits that the caller names:
// its longest length, for refusal 1, and the depth of its nodes, for 5.
#![tactic(auto)]

ghost use Rattle.std.specs.Prelude.{◌≡◌, length};
ghost use Rattle.format.specs.Layout.{layout_of, limits_of};
ghost use Rattle.format.specs.Refusal.{answer_of, number};
ghost use Rattle.format.specs.RelPtr.{signed_offset, stored_offset, absent_offset};
ghost use Rattle.format.specs.Align.{align_step};
ghost use Rattle.format.specs.Key.{pack_key, fields_of, seen, threshold};
ghost use Rattle.format.specs.Check.{counted, check_archive};
ghost use Rattle.format.specs.Certify.{certify};
ghost use Rattle.format.specs.Build.{build, build_length, out_after};
ghost use Rattle.format.specs.Calls.{lookup_call, bytes_call, place_call, walk_call, walk_keys, walk_values, range_call, range_keys, range_values, column_call};
ghost use Rattle.format.specs.Calls.{column_keys, column_values};

use format::{Column, Entry, KeyFields, Layout, Limits, Matched, Packing, Refusal, Step, Walk};
use perimetry::column::column_bounds;
use std::ops::Bound;

// The recorded count, or 24, or the first fault of 1 to 7.
pub fn check(layout: Layout, limits: Limits, archive: &[u8]) -> Result<usize, Refusal>
    ensures { answer_of result ≡ counted (check_archive (layout_of layout) (limits_of limits) archive.now) }
{
    validation::check::check(archive, layout, limits)
}

// The recorded count, or 24, or the first fault of 1 to 9.
pub fn certify(layout: Layout, limits: Limits, archive: &[u8]) -> Result<usize, Refusal>
    ensures { answer_of result ≡ counted (certify (layout_of layout) (limits_of limits) archive.now) }
{
    readers::certify(archive, layout, limits)
}

// The entry that rkyv's search finds. On a certified archive it is the list's with that key, or there is none; on one that is only accepted the
// search can miss an entry that the walk shows.
pub fn lookup(
    layout: Layout,
    limits: Limits,
    archive: &[u8],
    key: u64,
) -> Result<Option<Entry>, Refusal>
    ensures { answer_of result ≡ lookup_call (layout_of layout) (limits_of limits) archive.now key }
{
    readers::lookup(archive, layout, limits, key)
}

// The eight bytes of the value that a lookup finds, as a part of the archive; where it finds none or the archive is refused, the empty part at its
// start.
pub fn lookup_bytes<'a>(layout: Layout, limits: Limits, archive: &'a [u8], key: u64) -> &'a [u8]
    ensures place { result.ref_ptr ≡ place_call (layout_of layout) (limits_of limits) archive.now archive.entry.ref_ptr key }
    ensures bytes { result.now ≡ bytes_call (layout_of layout) (limits_of limits) archive.now key }
{
    readers::lookup_bytes(archive, layout, limits, key)
}

// Writes keys and values in the order of `visit` until the shorter list is full.
pub fn walk(
    layout: Layout,
    limits: Limits,
    archive: &[u8],
    keys: &mut [u64],
    values: &mut [u64],
) -> Result<Walk, Refusal>
    ensures answer { answer_of result ≡ walk_call (layout_of layout) (limits_of limits) archive.now keys.old values.old }
    ensures keys { keys.new
        ≡ walk_keys (layout_of layout) (limits_of limits) archive.now keys.old values.old }
    ensures values { values.new
        ≡ walk_values (layout_of layout) (limits_of limits) archive.now keys.old values.old }
{
    readers::walk(archive, layout, limits, keys, values)
}

// Of a certified archive, writes keys and values of the entries that meet both bounds until the shorter list is full, and counts them all.
pub fn range(
    layout: Layout,
    limits: Limits,
    archive: &[u8],
    lower: Bound<u64>,
    upper: Bound<u64>,
    keys: &mut [u64],
    values: &mut [u64],
) -> Result<Matched, Refusal>
    ensures answer { answer_of result
        ≡ range_call (layout_of layout) (limits_of limits) archive.now lower upper keys.old values.old }
    ensures keys { keys.new
        ≡ range_keys (layout_of layout) (limits_of limits) archive.now lower upper keys.old values.old }
    ensures values { values.new
        ≡ range_values (layout_of layout) (limits_of limits) archive.now lower upper keys.old values.old }
{
    readers::range(archive, layout, limits, lower, upper, keys, values)
}

// The range of a column query, for one eye of one examination, by the packing of the archive's keys. Of keys that store x plus 128, the entries with x
// from a to b, and none if a is above b. Of keys in two's complement the same where a and b are both from 0 on or both below 0; where a is below 0 and
// b is not, none; where b is below 0 and a is not, those with x from a on and those with x up to b.
pub fn column(
    layout: Layout,
    limits: Limits,
    archive: &[u8],
    packing: Packing,
    examination: u32,
    eye: u8,
    a: i8,
    b: i8,
    keys: &mut [u64],
    values: &mut [u64],
) -> Result<Matched, Refusal>
    ensures answer { answer_of result
        ≡ column_call (layout_of layout) (limits_of limits) archive.now packing examination eye a b keys.old values.old }
    ensures keys { keys.new
        ≡ column_keys (layout_of layout) (limits_of limits) archive.now packing examination eye a b keys.old values.old }
    ensures values { values.new
        ≡ column_values (layout_of layout) (limits_of limits) archive.now packing examination eye a b keys.old values.old }
{
    match column_bounds(packing, examination, eye, a, b) {
        Ok(Column { lower, upper }) => range(layout, limits, archive, lower, upper, keys, values),
        Err(why) => {
            certify(layout, limits, archive)?;
            Err(why)
        }
    }
}

// Writes the given entries as an archive behind the first `header` bytes of the output, which stay, and answers the archive's end.
pub fn build(
    layout: Layout,
    out: &mut [u8],
    header: usize,
    keys: &[u64],
    values: &[u64],
) -> Result<usize, Refusal>
    ensures answer { answer_of result ≡ build (layout_of layout) keys.now values.now header (length out.old) }
    ensures bytes { out.new ≡ out_after (layout_of layout) keys.now values.now header out.old }
{
    builder::build::build(out, layout, header, keys, values)
}

// How long the output has to be for so many entries behind a header: where `build` will end.
pub fn build_length(layout: Layout, entries: usize, header: usize) -> Result<usize, Refusal>
    ensures { answer_of result ≡ build_length (layout_of layout) entries header }
{
    builder::build::build_length(layout, entries, header)
}

// The signed difference of two positions.
pub fn signed_offset(from: u64, to: u64) -> Result<i64, Refusal>
    ensures { answer_of result ≡ signed_offset from to }
{
    offsets::rel_ptr::signed_offset(from, to)
}

// The 32-bit offset from a field to a position.
pub fn offset32(from: u64, to: u64) -> Result<i32, Refusal>
    ensures { answer_of result ≡ stored_offset 31 from to }
{
    offsets::rel_ptr::offset32(from, to)
}

// The offset that marks an absent pointer at a position.
pub fn absent_offset(at: u64) -> Result<i32, Refusal>
    ensures { answer_of result ≡ absent_offset 31 at }
{
    offsets::rel_ptr::absent_offset(at)
}

// The next position on an alignment, and the zeros before it.
pub fn align(pos: u64, alignment: u64) -> Result<Step, Refusal>
    ensures { answer_of result ≡ align_step pos alignment }
{
    offsets::ser::writer::align(pos, alignment)
}

// The key of an examination's fields.
pub fn pack(
    packing: Packing,
    examination: u32,
    eye: u8,
    x: i8,
    y: i8,
    presentation: u32,
) -> Result<u64, Refusal>
    ensures { answer_of result ≡ pack_key packing examination eye x y presentation }
{
    perimetry::key::pack(packing, examination, eye, x, y, presentation)
}

// The fields of a key, read by the packing that stored it.
pub fn unpack(key: u64, packing: Packing) -> KeyFields
    ensures { result ≡ fields_of packing key }
{
    perimetry::key::unpack(key, packing)
}

// Whether the stimulus of a value was seen.
pub fn seen(value: u64) -> bool
    ensures { result ≡ seen value }
{
    perimetry::value::is_seen(value)
}

// The threshold of a value in tenths of a decibel.
pub fn threshold(value: u64) -> u16
    ensures { result ≡ threshold value }
{
    perimetry::value::threshold(value)
}

// A refusal's number in the order of the tests.
pub fn refusal_number(why: Refusal) -> u64
    ensures { result ≡ number why }
{
    why.number()
}

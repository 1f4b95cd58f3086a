// Ranges of keys of a certified archive.
ghost use Rattle.std.specs.Prelude.{◌≡◌};
ghost use Rattle.format.specs.Calls.{range_call, range_keys, range_values, column_call, column_keys, column_values};
ghost use Rattle.codes.specs.Answers.{coded, Tells, layout_by, limits_by, stored, bound_of, packing_of, range_written, range_matching};

use codes::{bound, given, refused};
use format::Limits;

// Writes keys and values of the entries that meet both bounds until the shorter list is full, and stores how many there are. The number written.
#[unsafe(no_mangle)]
pub extern "C" fn fieldmap_range(
    width: u8,
    entries: usize,
    longest: usize,
    depth: usize,
    archive: &[u8],
    lower_kind: u8,
    lower: u64,
    upper_kind: u8,
    upper: u64,
    keys: &mut [u64],
    values: &mut [u64],
    matching: &mut u64,
) -> i64
    ensures answer { result ≡ coded range_written
        (range_call (layout_by width entries) (limits_by longest depth) archive.now (bound_of lower_kind lower) (bound_of upper_kind upper)
        keys.old values.old) }
    ensures told { Tells result
        (range_call (layout_by width entries) (limits_by longest depth) archive.now (bound_of lower_kind lower) (bound_of upper_kind upper)
        keys.old values.old) }
    ensures keys { keys.new
        ≡ range_keys (layout_by width entries) (limits_by longest depth) archive.now (bound_of lower_kind lower) (bound_of upper_kind upper)
        keys.old values.old }
    ensures values { values.new
        ≡ range_values (layout_by width entries) (limits_by longest depth) archive.now (bound_of lower_kind lower) (bound_of upper_kind upper)
        keys.old values.old }
    ensures matching { matching.new ≡ stored range_matching
        (range_call (layout_by width entries) (limits_by longest depth) archive.now (bound_of lower_kind lower) (bound_of upper_kind upper)
        keys.old values.old)
        matching.old }
{
    let from = bound(lower_kind, lower);
    let to = bound(upper_kind, upper);
    match fieldmap::range(
        codes::layout(width, entries),
        Limits { longest, depth },
        archive,
        from,
        to,
        keys,
        values,
    ) {
        Err(why) => refused(why),
        Ok(matched) => {
            *matching = matched.matching as u64;
            given(matched.written)
        }
    }
}

// The range of a column query, for one eye of one examination, by the packing of the archive's keys. It writes, stores and answers as a range does.
#[unsafe(no_mangle)]
pub extern "C" fn fieldmap_column(
    width: u8,
    entries: usize,
    longest: usize,
    depth: usize,
    archive: &[u8],
    packing: u8,
    examination: u32,
    eye: u8,
    a: i8,
    b: i8,
    keys: &mut [u64],
    values: &mut [u64],
    matching: &mut u64,
) -> i64
    ensures answer { result ≡ coded range_written
        (column_call (layout_by width entries) (limits_by longest depth) archive.now (packing_of packing) examination eye a b
        keys.old values.old) }
    ensures told { Tells result
        (column_call (layout_by width entries) (limits_by longest depth) archive.now (packing_of packing) examination eye a b
        keys.old values.old) }
    ensures keys { keys.new
        ≡ column_keys (layout_by width entries) (limits_by longest depth) archive.now (packing_of packing) examination eye a b
        keys.old values.old }
    ensures values { values.new
        ≡ column_values (layout_by width entries) (limits_by longest depth) archive.now (packing_of packing) examination eye a b
        keys.old values.old }
    ensures matching { matching.new ≡ stored range_matching
        (column_call (layout_by width entries) (limits_by longest depth) archive.now (packing_of packing) examination eye a b
        keys.old values.old)
        matching.old }
{
    let by = codes::packing(packing);
    match fieldmap::column(
        codes::layout(width, entries),
        Limits { longest, depth },
        archive,
        by,
        examination,
        eye,
        a,
        b,
        keys,
        values,
    ) {
        Err(why) => refused(why),
        Ok(matched) => {
            *matching = matched.matching as u64;
            given(matched.written)
        }
    }
}

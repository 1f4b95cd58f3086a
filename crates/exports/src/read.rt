// The readers of an archive: check, certify, lookup and walk.
ghost use Rattle.std.specs.Prelude.{◌≡◌, take, drop};
ghost use Rattle.format.specs.Check.{counted, check_archive};
ghost use Rattle.format.specs.Certify.{certify};
ghost use Rattle.format.specs.Calls.{lookup_call, bytes_call, walk_call, walk_keys, walk_values};
ghost use Rattle.codes.specs.Answers.{coded, Tells, layout_by, limits_by, stored, found_flag, part_length, length_told, stored_found};
ghost use Rattle.codes.specs.Answers.{entry_value, entry_position, walk_written, walk_count};

use codes::{counted, given, refused};
use format::Limits;

// The recorded count, or 24, or the first fault of 1 to 7.
#[unsafe(no_mangle)]
pub extern "C" fn fieldmap_check(
    width: u8,
    entries: usize,
    longest: usize,
    depth: usize,
    archive: &[u8],
) -> i64
    ensures value { result ≡ coded (λ n. n) (counted (check_archive (layout_by width entries) (limits_by longest depth) archive.now)) }
    ensures told { Tells result (counted (check_archive (layout_by width entries) (limits_by longest depth) archive.now)) }
{
    counted(fieldmap::check(
        codes::layout(width, entries),
        Limits { longest, depth },
        archive,
    ))
}

// The recorded count, or 24, or the first fault of 1 to 9.
#[unsafe(no_mangle)]
pub extern "C" fn fieldmap_certify(
    width: u8,
    entries: usize,
    longest: usize,
    depth: usize,
    archive: &[u8],
) -> i64
    ensures value { result ≡ coded (λ n. n) (counted (certify (layout_by width entries) (limits_by longest depth) archive.now)) }
    ensures told { Tells result (counted (certify (layout_by width entries) (limits_by longest depth) archive.now)) }
{
    counted(fieldmap::certify(
        codes::layout(width, entries),
        Limits { longest, depth },
        archive,
    ))
}

// Stores the value of the entry that a lookup finds and the position of the value's first byte and answers 1, or answers 0 where it finds none.
#[unsafe(no_mangle)]
pub extern "C" fn fieldmap_lookup(
    width: u8,
    entries: usize,
    longest: usize,
    depth: usize,
    archive: &[u8],
    key: u64,
    value: &mut u64,
    position: &mut u64,
) -> i64
    ensures answer { result ≡ coded found_flag (lookup_call (layout_by width entries) (limits_by longest depth) archive.now key) }
    ensures told { Tells result (lookup_call (layout_by width entries) (limits_by longest depth) archive.now key) }
    ensures value { value.new
        ≡ stored_found entry_value (lookup_call (layout_by width entries) (limits_by longest depth) archive.now key) value.old }
    ensures position { position.new
        ≡ stored_found entry_position (lookup_call (layout_by width entries) (limits_by longest depth) archive.now key) position.old }
{
    match fieldmap::lookup(
        codes::layout(width, entries),
        Limits { longest, depth },
        archive,
        key,
    ) {
        Err(why) => refused(why),
        Ok(None) => 0,
        Ok(Some(e)) => {
            *value = e.value;
            *position = e.position.0 as u64;
            1
        }
    }
}

// The eight bytes of the value that a lookup finds as a part of the archive: stores where the part starts and answers its length, 8. Where it finds none
// the part is empty: the answer is 0, and the start stays.
#[unsafe(no_mangle)]
pub extern "C" fn fieldmap_lookup_bytes(
    width: u8,
    entries: usize,
    longest: usize,
    depth: usize,
    archive: &[u8],
    key: u64,
    start: &mut u64,
) -> i64
    ensures answer { result ≡ coded part_length (lookup_call (layout_by width entries) (limits_by longest depth) archive.now key) }
    ensures told { Tells result (lookup_call (layout_by width entries) (limits_by longest depth) archive.now key) }
    ensures start { start.new
        ≡ stored_found entry_position (lookup_call (layout_by width entries) (limits_by longest depth) archive.now key) start.old }
    ensures part { take (length_told result) (drop start.new archive.now)
        ≡ bytes_call (layout_by width entries) (limits_by longest depth) archive.now key }
{
    match fieldmap::lookup(
        codes::layout(width, entries),
        Limits { longest, depth },
        archive,
        key,
    ) {
        Err(fault) => refused(fault),
        Ok(None) => 0,
        Ok(Some(e)) => {
            *start = e.position.0 as u64;
            8
        }
    }
}

// Writes keys and values in the order of the walk until the shorter list is full, and stores the recorded count. The number written.
#[unsafe(no_mangle)]
pub extern "C" fn fieldmap_walk(
    width: u8,
    entries: usize,
    longest: usize,
    depth: usize,
    archive: &[u8],
    keys: &mut [u64],
    values: &mut [u64],
    count: &mut u64,
) -> i64
    ensures answer { result
        ≡ coded walk_written (walk_call (layout_by width entries) (limits_by longest depth) archive.now keys.old values.old) }
    ensures told { Tells result
        (walk_call (layout_by width entries) (limits_by longest depth) archive.now keys.old values.old) }
    ensures keys { keys.new
        ≡ walk_keys (layout_by width entries) (limits_by longest depth) archive.now keys.old values.old }
    ensures values { values.new
        ≡ walk_values (layout_by width entries) (limits_by longest depth) archive.now keys.old values.old }
    ensures count { count.new
        ≡ stored walk_count (walk_call (layout_by width entries) (limits_by longest depth) archive.now keys.old values.old)
        count.old }
{
    match fieldmap::walk(
        codes::layout(width, entries),
        Limits { longest, depth },
        archive,
        keys,
        values,
    ) {
        Err(why) => refused(why),
        Ok(walk) => {
            *count = walk.count as u64;
            given(walk.written)
        }
    }
}

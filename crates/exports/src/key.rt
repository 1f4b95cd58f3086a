// Keys and values. x and y are signed numbers of 8 bits; a packing is given by its number.
ghost use Rattle.std.specs.Prelude.{◌≡◌};
ghost use Rattle.format.specs.Refusal.{gives};
ghost use Rattle.format.specs.Key.{pack_key, fields_of, seen, threshold};
ghost use Rattle.codes.specs.Answers.{coded, Tells, stored, seen_flag, packing_of};

use codes::refused;

// Stores the key of an examination's fields and answers 0.
#[unsafe(no_mangle)]
pub extern "C" fn fieldmap_pack(
    packing: u8,
    examination: u32,
    eye: u8,
    x: i8,
    y: i8,
    presentation: u32,
    key: &mut u64,
) -> i64
    ensures answer { result ≡ coded (λ k. 0) (pack_key (packing_of packing) examination eye x y presentation) }
    ensures told { Tells result (pack_key (packing_of packing) examination eye x y presentation) }
    ensures key { key.new ≡ stored (λ k. k) (pack_key (packing_of packing) examination eye x y presentation) key.old }
{
    let by = codes::packing(packing);
    match fieldmap::pack(by, examination, eye, x, y, presentation) {
        Err(why) => refused(why),
        Ok(k) => {
            *key = k;
            0
        }
    }
}

// Stores the fields of a key and answers 0. Every key has them.
#[unsafe(no_mangle)]
pub extern "C" fn fieldmap_unpack(
    key: u64,
    packing: u8,
    examination: &mut u32,
    eye: &mut u8,
    x: &mut i8,
    y: &mut i8,
    presentation: &mut u32,
) -> i64
    ensures answer { result ≡ coded (λ f. 0) (gives (fields_of (packing_of packing) key)) }
    ensures examination { examination.new ≡ (fields_of (packing_of packing) key).examination }
    ensures eye { eye.new ≡ (fields_of (packing_of packing) key).eye }
    ensures x { x.new ≡ (fields_of (packing_of packing) key).x }
    ensures y { y.new ≡ (fields_of (packing_of packing) key).y }
    ensures presentation { presentation.new ≡ (fields_of (packing_of packing) key).presentation }
{
    let f = fieldmap::unpack(key, codes::packing(packing));
    let degrees_x = f.x;
    let degrees_y = f.y;
    *examination = f.examination;
    *eye = f.eye;
    *x = degrees_x;
    *y = degrees_y;
    *presentation = f.presentation;
    0
}

// Whether the stimulus of a value was seen: 1, or 0.
#[unsafe(no_mangle)]
pub extern "C" fn fieldmap_seen(value: u64) -> i64
    ensures { result ≡ coded seen_flag (gives (seen value)) }
{
    if fieldmap::seen(value) {
        return 1;
    }
    0
}

// The threshold of a value in tenths of a decibel.
#[unsafe(no_mangle)]
pub extern "C" fn fieldmap_threshold(value: u64) -> i64
    ensures { result ≡ coded (λ n. n) (gives (threshold value)) }
{
    fieldmap::threshold(value) as i64
}

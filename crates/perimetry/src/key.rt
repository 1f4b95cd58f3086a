// Key packing: the fields of a key, most significant first, are examination 24 bits, eye 1, x 8, y 8 and presentation 23. The packing says how x and y
// stand in theirs.
ghost use Rattle.std.specs.Prelude.{◌≡◌, ◌<◌, ◌^◌};
ghost use Rattle.format.specs.Key.{key_of, pack_key, fields_of};
ghost use Rattle.format.specs.Refusal.{answer_of};

use crate::degrees::{bits_of, degrees_of};
use format::{KeyFields, Packing, Refusal};

// The bit of the key at which each field starts; the presentation starts at 0.
#[derive(Clone, Copy)]
struct LowestBit;

impl LowestBit {
    const EXAMINATION: u64 = 40;

    const EYE: u64 = 39;

    const X: u64 = 31;

    const Y: u64 = 23;
}

// How many values each of these fields has.
#[derive(Clone, Copy)]
pub(crate) struct Count;

impl Count {
    pub(crate) const EXAMINATIONS: u32 = 0x100_0000;

    pub(crate) const EYES: u8 = 2;

    pub(crate) const PRESENTATIONS: u32 = 0x80_0000;
}

// x and y are given as their bits.
pub(crate) fn key_of(examination: u32, eye: u8, x: u8, y: u8, presentation: u32) -> u64
    requires { (examination < 2 ^ 24) × (eye < 2) × (presentation < 2 ^ 23) }
    ensures { result ≡ key_of examination eye x y presentation }
{
    ((examination as u64) << LowestBit::EXAMINATION)
        + ((eye as u64) << LowestBit::EYE)
        + ((x as u64) << LowestBit::X)
        + ((y as u64) << LowestBit::Y)
        + presentation as u64
}

pub fn pack(
    packing: Packing,
    examination: u32,
    eye: u8,
    x: i8,
    y: i8,
    presentation: u32,
) -> Result<u64, Refusal>
    ensures { answer_of result ≡ pack_key packing examination eye x y presentation }
{
    if examination >= Count::EXAMINATIONS
        || eye >= Count::EYES
        || presentation >= Count::PRESENTATIONS
    {
        return Err(Refusal::KeyFieldOverflow);
    }
    Ok(key_of(
        examination,
        eye,
        bits_of(packing, x),
        bits_of(packing, y),
        presentation,
    ))
}

pub fn unpack(key: u64, packing: Packing) -> KeyFields
    ensures { result ≡ fields_of packing key }
{
    KeyFields {
        examination: (key >> LowestBit::EXAMINATION) as u32,
        eye: ((key >> LowestBit::EYE) % 2) as u8,
        x: degrees_of(packing, ((key >> LowestBit::X) % 256) as u8),
        y: degrees_of(packing, ((key >> LowestBit::Y) % 256) as u8),
        presentation: (key % Count::PRESENTATIONS as u64) as u32,
    }
}

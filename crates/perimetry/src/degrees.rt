// x and y as the eight bits of a key's field, by the packing.
ghost use Rattle.std.specs.Prelude.{◌≡◌};
ghost use Rattle.format.specs.Key.{bits_of, degrees_of};

use fields::twos::{bits8, signed8};
use format::Packing;

pub(crate) fn bits_of(packing: Packing, degrees: i8) -> u8
    ensures { result ≡ bits_of packing degrees }
{
    match packing {
        Packing::TwosComplement => bits8(degrees),
        Packing::Plus128 => (degrees as i64 + 128) as u8,
    }
}

pub(crate) fn degrees_of(packing: Packing, bits: u8) -> i8
    ensures { result ≡ degrees_of packing bits }
{
    match packing {
        Packing::TwosComplement => signed8(bits),
        Packing::Plus128 => (bits as i64 - 128) as i8,
    }
}

// The column query: for one eye of one examination, the range of keys from the first of x = a to the last of x = b. Keys are ordered by the bits of x.
// Where those are x plus 128, these are the keys with x from a to b, and none if a is above b. In two's complement -128 to -1 come after 0 to 127:
// where a and b are both from 0 on or both below 0, these are the keys with x from a to b; where a is below 0 and b is not, there are none; where b is
// below 0 and a is not, those with x from a on and those with x up to b.
ghost use Rattle.std.specs.Prelude.{◌≡◌};
ghost use Rattle.format.specs.Key.{column_bounds};
ghost use Rattle.format.specs.Refusal.{answer_of};

use crate::degrees::bits_of;
use crate::key::{Count, key_of};
use format::{Column, Packing, Refusal};
use std::ops::Bound;

pub fn column_bounds(
    packing: Packing,
    examination: u32,
    eye: u8,
    a: i8,
    b: i8,
) -> Result<Column, Refusal>
    ensures { answer_of result ≡ column_bounds packing examination eye a b }
{
    if examination >= Count::EXAMINATIONS || eye >= Count::EYES {
        return Err(Refusal::KeyFieldOverflow);
    }
    let first = bits_of(packing, a);
    let last = bits_of(packing, b);
    Ok(Column {
        lower: Bound::Included(key_of(examination, eye, first, 0, 0)),
        upper: Bound::Included(key_of(examination, eye, last, 0xff, Count::PRESENTATIONS - 1)),
    })
}

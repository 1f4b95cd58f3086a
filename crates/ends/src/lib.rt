// The bounds of a range as numbers: what is open, included or excluded is decided here, and nowhere else.
#![tactic(auto)]

ghost use Rattle.std.specs.Prelude.{◌≡◌, ◌-◌, ◌^◌, ◌<◌, SomeIff};
ghost use Rattle.format.specs.Range.{least_of, past_of, ends_of};

use format::Ends;
use std::ops::Bound;

// The greatest key that meets an upper bound; none is below an excluded 0.
fn greatest_key(upper: Bound<u64>) -> Option<u64>
    ensures { SomeIff result (0 < past_of upper) (past_of upper - 1) }
{
    match upper {
        Bound::Unbounded => Some(u64::MAX),
        Bound::Included(key) => Some(key),
        Bound::Excluded(key) => key.checked_sub(1),
    }
}

// The least key that meets a lower bound; none is above an excluded largest key.
fn least_key(lower: Bound<u64>) -> Option<u64>
    ensures { SomeIff result (least_of lower < 2 ^ 64) (least_of lower) }
{
    match lower {
        Bound::Unbounded => Some(0),
        Bound::Included(key) => Some(key),
        Bound::Excluded(key) => key.checked_add(1),
    }
}

// The keys that meet both bounds, as numbers.
pub fn ends_of(lower: Bound<u64>, upper: Bound<u64>) -> Option<Ends>
    ensures { result ≡ ends_of lower upper }
{
    let greatest = greatest_key(upper)?;
    let least = least_key(lower)?;
    if greatest < least {
        return None;
    }
    Some(Ends { least, greatest })
}

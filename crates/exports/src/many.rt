// Many lookups after one check.
ghost use Rattle.std.specs.Prelude.{◌≡◌};
ghost use Rattle.codes.specs.Answers.{coded, Tells, layout_by, limits_by};
ghost use Rattle.lookups.specs.Many.{many_call, many_values};

use codes::counted;
use format::Limits;

// Looks up keys after one check and stores each value that is found at the place of its key. Keys beyond the values' places are not looked up. The number
// of keys found.
#[unsafe(no_mangle)]
pub extern "C" fn fieldmap_lookup_many(
    width: u8,
    entries: usize,
    longest: usize,
    depth: usize,
    archive: &[u8],
    keys: &[u64],
    values: &mut [u64],
) -> i64
    ensures answer { result
        ≡ coded (λ n. n) (many_call (layout_by width entries) (limits_by longest depth) archive.now keys.now values.old) }
    ensures told { Tells result
        (many_call (layout_by width entries) (limits_by longest depth) archive.now keys.now values.old) }
    ensures values { values.new
        ≡ many_values (layout_by width entries) (limits_by longest depth) archive.now keys.now values.old }
{
    let layout = codes::layout(width, entries);
    let limits = Limits { longest, depth };
    counted(readers::look_up_many(archive, layout, limits, keys, values))
}

// Lookups in one accepted archive, from its root: of one key in `map`, of many keys here.
#![tactic(auto)]

pub mod map;

ghost use Rattle.std.specs.Prelude.{◌≡◌, ◌≤◌};
ghost use Rattle.format.specs.Layout.{layout_of, server, nested};
ghost use Rattle.format.specs.Lookup.{lookup_at};
ghost use Rattle.format.specs.Readable.{Node};
ghost use Rattle.lookups.specs.Many.{many, all_many};

use crate::map::get_key_value_raw;
use format::{Layout, Position};

// Looks up every key that has a place, from the root on. The number of keys found.
pub fn look_up_all(
    archive: &[u8],
    layout: Layout,
    root: Position,
    keys: &[u64],
    values: &mut [u64],
) -> usize
    requires { (layout.entries ≤ 15) × Node (layout_of layout) server archive.now root.0 }
    ensures { many values.new result
        ≡ all_many (λ k. lookup_at (layout_of layout) archive.now k (nested server) root.0) keys.now values.old }
{
    let mut found = 0;
    for i in 0..keys.len().min(values.len()) {
        if let Some(entry) = get_key_value_raw(archive, layout, root, keys[i]) {
            values[i] = entry.value;
            found += 1;
        }
    }
    found
}

// The range of an archive whose keys ascend (rkyv's src/collections/btree/map/iter.rs). Its bounds are numbers before a node is read.
ghost use Rattle.std.specs.Prelude.{◌≡◌, ◌≤◌, length};
ghost use Rattle.format.specs.Layout.{layout_of, server, nested};
ghost use Rattle.format.specs.Entries.{list_at};
ghost use Rattle.format.specs.Certify.{Ascending};
ghost use Rattle.format.specs.Range.{matches, select};
ghost use Rattle.format.specs.Readable.{Node};
ghost use Rattle.format.specs.Written.{out, walked};

use crate::node::range_node;
use ends::ends_of;
use format::{Ends, Layout, Matched, Position};
use std::ops::Bound;

// Writes the entries from the root on whose keys meet both bounds, from the front of both lists until the shorter is full, and counts them all.
pub fn range_with(
    archive: &[u8],
    layout: Layout,
    root: Position,
    lower: Bound<u64>,
    upper: Bound<u64>,
    keys: &mut [u64],
    values: &mut [u64],
) -> Matched
    requires entries_bound { layout.entries ≤ 15 }
    requires node { Node (layout_of layout) server archive.now root.0 }
    requires ascending { Ascending (list_at (layout_of layout) archive.now (nested server) root.0) }
    ensures written_after { out keys.new values.new result.written
        ≡ walked (select (matches lower upper) (list_at (layout_of layout) archive.now (nested server) root.0))
        keys.old values.old }
    ensures matching_value { result.matching
        ≡ length (select (matches lower upper) (list_at (layout_of layout) archive.now (nested server) root.0)) }
{
    let Some(Ends { least, greatest }) = ends_of(lower, upper) else {
        return Matched {
            written: 0,
            matching: 0,
        };
    };
    let matching = range_node(archive, layout, root, least, greatest, keys, values);
    Matched {
        written: matching.min(keys.len()).min(values.len()),
        matching,
    }
}

// What is known of an archive by the number of entries, with no walk over them: its levels, its end, and whether its offsets fit.
ghost use Rattle.std.specs.Prelude.{◌≡◌, suc, ◌+◌, ◌-◌, ◌*◌, ◌^◌, ◌<◌, ◌≤◌, min};
ghost use Rattle.format.specs.Layout.{layout_of, leaf_size, inner_size};
ghost use Rattle.format.specs.Weight.{up, size_by};
ghost use Rattle.builder.specs.Size.{Named, nodes_of, reach_of, fits_width, Leveled, Planned};

use format::Layout;
use offsets::rel_ptr::ones;

// The levels above the last one (rkyv's `entries_to_height`), the power of the number of children, of which one less is the entries there, the nodes
// right over the last level, and the nodes above those.
#[derive(Clone, Copy)]
pub struct Levels {
    pub above: usize,
    pub power: usize,
    pub over: usize,
    pub higher: usize,
}

// Counts the levels by powers, up to the last that n entries fill.
fn levels_of(layout: Layout, n: usize) -> Levels
    requires { Named (layout_of layout) n × (0 < n) }
    ensures { Leveled (layout_of layout) n result }
{
    let mut above: usize = 0;
    let mut power: usize = 1;
    let mut over: usize = 0;
    let mut higher: usize = 0;
    while power * (layout.entries + 1) <= n {
        higher += over;
        over = power;
        power = power * (layout.entries + 1);
        above += 1;
    }
    Levels {
        above,
        power,
        over,
        higher,
    }
}

// Counts how many t entries need if each takes up to `each`.
fn needed(t: usize, each: usize) -> usize
    requires { (0 < each) × (t + each < 2 ^ 63) }
    ensures { result ≡ up t each }
{
    (t + (each - 1)) / each
}

// Computes the bytes of a subtree with p nodes over the last level, which takes at most m entries, and q nodes above those. As many of the p as the
// last level needs are inner nodes, the others full leaves.
fn size_over(layout: Layout, p: usize, q: usize, m: usize) -> usize
    requires { Named (layout_of layout) m × (0 < p) × (p ≤ 40000) × (q ≤ 40000) }
    ensures { result ≡ size_by (leaf_size (layout_of layout)) (inner_size (layout_of layout)) layout.entries p q
        (min m (layout.entries * suc layout.entries * p)) }
{
    let below = layout.entries * (layout.entries + 1);
    let t = m.min(below * p);
    let inners = needed(t, below);
    let leaves = needed(t, layout.entries) + (p - inners);
    layout.leaf() * leaves + layout.inner() * (inners + q)
}

// Computes the bytes of the nodes of n entries.
fn nodes_of(layout: Layout, v: Levels, n: usize) -> usize
    requires { Named (layout_of layout) n × (0 < n) × Leveled (layout_of layout) n v }
    ensures { result ≡ nodes_of (layout_of layout) n }
{
    if v.above == 0 {
        return layout.leaf();
    }
    size_over(layout, v.over, v.higher, n - (v.power - 1))
}

// Computes how far back the root's first offset leads, the longest of all; `nodes` is the answer of `nodes_of`.
fn reach_of(layout: Layout, v: Levels, n: usize, nodes: usize) -> usize
    requires named { Named (layout_of layout) n × (0 < n) × Leveled (layout_of layout) n v }
    requires nodes_value { nodes ≡ nodes_of (layout_of layout) n }
    ensures { result ≡ reach_of (layout_of layout) n }
{
    if v.above == 0 {
        return 0;
    }
    let beside = nodes - layout.inner();
    if v.above == 1 {
        return beside + layout.node();
    }
    let children = layout.entries + 1;
    let first = size_over(
        layout,
        v.over / children,
        (v.higher - 1) / children,
        n - (v.power - 1),
    );
    layout.inner() + (beside - first) + layout.node()
}

// Tells whether the width holds all offsets. None leads further back than the nodes are long, so most trees need no second size.
fn offsets_fit(layout: Layout, v: Levels, n: usize, nodes: usize) -> bool
    requires named { Named (layout_of layout) n × (0 < n) × Leveled (layout_of layout) n v }
    requires nodes_value { nodes ≡ nodes_of (layout_of layout) n }
    ensures { result ≡ fits_width (layout_of layout) n }
{
    let width = layout.width;
    let most = ones(width) / 2 + 1;
    if nodes as u64 <= most {
        return true;
    }
    reach_of(layout, v, n, nodes) as u64 <= most
}

// The number of entries, the levels above the last one, what the last one takes, where the archive begins behind the header and where it ends, and
// whether the width holds all offsets.
#[derive(Clone, Copy)]
pub struct Plan {
    pub entries: usize,
    pub above: usize,
    pub last: usize,
    pub first: usize,
    pub end: usize,
    pub fits: bool,
}

// Plans an archive of n entries.
pub(crate) fn plan_of(layout: Layout, n: usize, header: usize) -> Plan
    requires { Named (layout_of layout) n × (header ≤ 4096) }
    ensures { Planned (layout_of layout) n header result }
{
    if n == 0 {
        let first = header.next_multiple_of(layout.pointer());
        return Plan {
            entries: 0,
            above: 0,
            last: 0,
            first,
            end: first + layout.record(),
            fits: true,
        };
    }
    let v = levels_of(layout, n);
    let nodes = nodes_of(layout, v, n);
    let first = header.next_multiple_of(Layout::NODE_ALIGN);
    Plan {
        entries: n,
        above: v.above,
        last: n - (v.power - 1),
        first,
        end: first + nodes + layout.record(),
        fits: offsets_fit(layout, v, n, nodes),
    }
}

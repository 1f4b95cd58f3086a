// The entries of a build.
ghost use Rattle.std.specs.Prelude.{◌≡◌, ◌≤◌, length};

use format::Layout;

// The layout, and as many values as keys. Places in the lists are kept in four bytes.
#[derive(Clone, Copy)]
pub struct Given<'a> {
    pub layout: Layout,
    pub keys: &'a [u64],
    pub values: &'a [u64],
    pub ghost same: { length keys.now ≡ length values.now },
    pub ghost small: { length keys.now ≤ 0xffff_ffff },
    pub ghost few: { layout.entries ≤ 15 },
}

// What an open inner node holds of its entries and closed children (rkyv's src/util/inline_vec.rs).
ghost use Rattle.std.specs.Prelude.{◌≡◌, ◌+◌, ◌<◌, length, set};

// The position of a closed child. No archive has 2^32 bytes, so four are enough: the slots of every open node lie on the stack.
#[derive(Clone, Copy)]
pub struct ChildPos(pub u32);

// An entry's place in the given lists, and the lesser child before it.
#[derive(Clone, Copy)]
pub struct Slot {
    pub place: u32,
    pub lesser: Option<ChildPos>,
}

impl Slot {
    pub const EMPTY: Slot = Slot {
        place: 0,
        lesser: None,
    };
}

// An inner node that takes entries: the slots for them, and how many it has taken. The slots are lent: an array in the struct would move at each entry,
// and a build would take twice as long.
#[derive(Drop)]
pub struct OpenInner<'a> {
    pub slots: &'a mut [Slot],
    pub taken: usize,
}

impl<'a> OpenInner<'a> {
    // Opens a node that has taken no entry.
    pub fn new(slots: &'a mut [Slot]) -> Self
        ensures taken { result.taken ≡ 0 }
        ensures slots { result.slots.now ≡ slots.old }
    {
        Self { slots, taken: 0 }
    }

    // Takes an entry with the lesser child before it, and hands the node back.
    #[inline(always)]
    pub fn take(mut self, slot: Slot) -> Self
        requires { self.taken < length self.slots.now }
        ensures taken { result.taken ≡ self.entry.taken + 1 }
        ensures slots { result.slots.now ≡ set self.entry.slots.now self.entry.taken slot }
    {
        self.slots[self.taken] = slot;
        self.taken += 1;
        self
    }
}

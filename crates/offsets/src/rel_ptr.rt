// Relative pointers (rkyv's src/rel_ptr.rs): the distance from one position to another, the offset that a field stores, and where it leads.
ghost use Rattle.std.specs.Prelude.{◌≡◌, suc, ◌+◌, ◌-◌, ◌≤◌, ◌<◌, ◌^◌, pos, ◌+ℤ◌, length};
ghost use Rattle.format.specs.Layout.{layout_of, width_of, pointer, sign_bits};
ghost use Rattle.format.specs.Signed.{of_twos};
ghost use Rattle.format.specs.RelPtr.{fit_signed, signed_offset, stored_offset, absent_offset, position, target, absent};
ghost use Rattle.format.specs.Refusal.{answer_of};
ghost use Rattle.offsets.specs.Answers.{target_of};

use fields::primitive::uint_at;
use format::{Layout, Position, Refusal, Width};

// The signed difference of two positions.
pub fn signed_offset(from: u64, to: u64) -> Result<i64, Refusal>
    ensures { answer_of result ≡ signed_offset from to }
{
    to.checked_signed_diff(from).ok_or(Refusal::IsizeOverflow)
}

fn from_isize(z: i64) -> Result<i32, Refusal>
    ensures { answer_of result ≡ fit_signed 31 16 z }
{
    i32::try_from(z).ok().ok_or(Refusal::OffsetOverflow)
}

// An offset of 32 bits, as a field stores it.
pub fn offset32(from: u64, to: u64) -> Result<i32, Refusal>
    ensures { answer_of result ≡ stored_offset 31 from to }
{
    from_isize(signed_offset(from, to)?)
}

// The mark of an absent pointer is the offset to the next position, which wraps as in the crate's release build.
pub fn absent_offset(at: u64) -> Result<i32, Refusal>
    ensures { answer_of result ≡ absent_offset 31 at }
{
    offset32(at, at.wrapping_add(1))
}

// The bits of the offset -1.
pub fn ones(width: Width) -> u64
    ensures { result ≡ 2 ^ suc (sign_bits (width_of width)) - 1 }
{
    match width {
        Width::Two => 0xffff,
        Width::Four => 0xffff_ffff,
        Width::Eight => 0xffff_ffff_ffff_ffff,
    }
}

// Goes by the offset's bits. What they lack of the bits of -1 is below them where the offset is negative, and then it is the distance back less one.
fn follow(field: Position, bits: u64, width: Width) -> Option<Position>
    requires { (field.0 < 2 ^ 63) × (bits < 2 ^ suc (sign_bits (width_of width))) }
    ensures { target_of result ≡ position (pos field.0 +ℤ of_twos (sign_bits (width_of width)) bits) }
{
    let p = field.0;
    let back = ones(width) - bits;
    if bits <= back {
        return Some(Position(p + bits as usize));
    }
    if p as u64 <= back {
        return None;
    }
    Some(Position(p - 1 - back as usize))
}

// Where a pointer leads; nothing if that is before the archive's first byte.
pub fn rel_ptr_at(archive: &[u8], layout: Layout, field: Position) -> Option<Position>
    requires { field.0 + pointer (layout_of layout) ≤ length archive.now }
    ensures { target_of result ≡ target (layout_of layout) archive.now field.0 }
{
    let p = field.0;
    let width = layout.width;
    follow(field, uint_at(archive, p, width), width)
}

// The bits of the offset that marks an absent pointer.
const ABSENT: u64 = 1;

pub fn is_invalid_at(archive: &[u8], layout: Layout, field: Position) -> bool
    requires { field.0 + pointer (layout_of layout) ≤ length archive.now }
    ensures { result ≡ absent (layout_of layout) archive.now field.0 }
{
    let p = field.0;
    let width = layout.width;
    uint_at(archive, p, width) == ABSENT
}

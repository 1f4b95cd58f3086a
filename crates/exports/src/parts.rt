// The parts: differences and offsets of positions, and the alignment step. Each stores what it gives and answers 0.
ghost use Rattle.std.specs.Prelude.{◌≡◌};
ghost use Rattle.format.specs.RelPtr.{signed_offset, stored_offset, absent_offset};
ghost use Rattle.format.specs.Align.{align_step};
ghost use Rattle.codes.specs.Answers.{coded, Tells, stored, step_next, step_zeros};

use codes::refused;

// The signed difference of two positions.
#[unsafe(no_mangle)]
pub extern "C" fn fieldmap_signed_offset(from: u64, to: u64, offset: &mut i64) -> i64
    ensures answer { result ≡ coded (λ z. 0) (signed_offset from to) }
    ensures told { Tells result (signed_offset from to) }
    ensures offset { offset.new ≡ stored (λ z. z) (signed_offset from to) offset.old }
{
    match fieldmap::signed_offset(from, to) {
        Err(why) => refused(why),
        Ok(z) => {
            *offset = z;
            0
        }
    }
}

// The 32-bit offset from a field to a position.
#[unsafe(no_mangle)]
pub extern "C" fn fieldmap_offset32(from: u64, to: u64, offset: &mut i32) -> i64
    ensures answer { result ≡ coded (λ z. 0) (stored_offset 31 from to) }
    ensures told { Tells result (stored_offset 31 from to) }
    ensures offset { offset.new ≡ stored (λ z. z) (stored_offset 31 from to) offset.old }
{
    match fieldmap::offset32(from, to) {
        Err(why) => refused(why),
        Ok(z) => {
            *offset = z;
            0
        }
    }
}

// The offset that marks an absent pointer at a position.
#[unsafe(no_mangle)]
pub extern "C" fn fieldmap_absent_offset(at: u64, offset: &mut i32) -> i64
    ensures answer { result ≡ coded (λ z. 0) (absent_offset 31 at) }
    ensures told { Tells result (absent_offset 31 at) }
    ensures offset { offset.new ≡ stored (λ z. z) (absent_offset 31 at) offset.old }
{
    match fieldmap::absent_offset(at) {
        Err(why) => refused(why),
        Ok(z) => {
            *offset = z;
            0
        }
    }
}

// The next position on an alignment, and the zeros before it.
#[unsafe(no_mangle)]
pub extern "C" fn fieldmap_align(pos: u64, alignment: u64, next: &mut u64, zeros: &mut u64) -> i64
    ensures answer { result ≡ coded (λ s. 0) (align_step pos alignment) }
    ensures told { Tells result (align_step pos alignment) }
    ensures next { next.new ≡ stored step_next (align_step pos alignment) next.old }
    ensures zeros { zeros.new ≡ stored step_zeros (align_step pos alignment) zeros.old }
{
    match fieldmap::align(pos, alignment) {
        Err(why) => refused(why),
        Ok(step) => {
            *next = step.next;
            *zeros = step.zeros;
            0
        }
    }
}

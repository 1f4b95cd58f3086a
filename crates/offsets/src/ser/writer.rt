// The alignment step of a writer (rkyv's src/ser/writer/mod.rs).
ghost use Rattle.std.specs.Prelude.{◌≡◌};
ghost use Rattle.format.specs.Align.{is_alignment, align_step};
ghost use Rattle.format.specs.Refusal.{answer_of};

use format::{Refusal, Step};

fn is_alignment(a: u64) -> bool
    ensures { result ≡ is_alignment a }
{
    matches!(a, 1 | 2 | 4 | 8 | 16 | 32)
}

// The next position on an alignment, and the zeros before it.
pub fn align(pos: u64, alignment: u64) -> Result<Step, Refusal>
    ensures { answer_of result ≡ align_step pos alignment }
{
    if is_alignment(alignment) {
        let zeros = (alignment - pos % alignment) % alignment;
        if zeros <= 0xffff_ffff_ffff_ffff - pos {
            let next = pos + zeros;
            return Ok(Step { next, zeros });
        }
    }
    Err(Refusal::InvalidAlignment)
}

// Questions to the builder.
ghost use Rattle.std.specs.Prelude.{◌≡◌, length, replicate};

use crate::checksum::checksum;
use crate::input::{next_layout, next_list, next_u32, next_u64};
use crate::output::print_answer;
use format::{Layout, Limits};
use std::io;
use std::io::Read;

// Room for two entries more than the builder takes.
const ROOM: usize = 40002;

// Makes what an output holds before a build. It has a byte more than the longest archive.
pub fn blank() -> [u8; 1048577]
    ensures long { 1048577 ≡ length result }
    ensures bytes { result ≡ replicate 1048577 165 }
{
    [165; 1048577]
}

// Prints the length that as many entries as there are keys need, the answer, what certify says of the archive, and the checksum of the whole output.
fn build(
    rt: &impl Print,
    layout: Layout,
    out: &mut [u8],
    header: usize,
    keys: &[u64],
    values: &[u64],
) -> io::Result<()> {
    let length = fieldmap::build_length(layout, keys.len(), header);
    print_answer(rt, "length", length)?;
    let built = fieldmap::build(layout, out, header, keys, values);
    print_answer(rt, "build", built)?;
    if let Ok(end) = built
        && let Some(archive) = out.get(..end)
    {
        let certified = fieldmap::certify(layout, Limits::SERVER, archive);
        print_answer(rt, "certify", certified)?;
    }
    println!(rt; "checksum {}", checksum(out))
}

// Builds of the next two lists in the front of an output. Does nothing if one of the three is too long.
pub fn replay_build<R: Read>(rt: &impl Print, input: &mut R) -> io::Result<()> {
    let mut out = blank();
    let mut keys = [0; ROOM];
    let mut values = [0; ROOM];
    let layout = next_layout(input)?;
    let header = next_u64(input)? as usize;
    let length = next_u32(input)? as usize;
    let keys = next_list(input, &mut keys)?;
    let values = next_list(input, &mut values)?;
    if let (Some(out), Some(keys), Some(values)) = (out.get_mut(..length), keys, values) {
        build(rt, layout, out, header, keys, values)?;
    }
    Ok(())
}

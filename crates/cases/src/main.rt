// Replays a fixed sample of rkyv's answers: reads questions from standard input, puts them to the calls and prints the answers. The program
// `answers` in compare/ writes the input and, with rkyv itself, the text that must be printed; compare/README.md has the command.
//
// The input is a sequence of questions, all numbers little-endian; the archive that is too long for it stands in archives.rt. A question
// starts with its kind in one byte, and 0 or the end of the input ends the sequence:
//
// 1  an archive: its layout in two bytes, the longest archive and the depth of the limits in eight bytes each, its length in four bytes and the archive,
//    at most 65,536 bytes; the number of keys to look up in four bytes and the keys; the number of ranges in four bytes and of each the lower and the
//    upper bound, a kind in one byte (0 included, 1 excluded, 2 unbounded) and a key; the number of column queries in four bytes and of each packing,
//    examination, eye, a and b in 1, 4, 1, 1 and 1 bytes
// 2  a build: the layout in two bytes, the header's length in eight bytes, the output's in four, and two lists, each its length in four bytes,
//    its form in one byte, and the numbers (form 0) or the first number and the step from one to the next (form 1)
// 3  a signed difference: two positions     4  a 32-bit offset: two positions     5  an absent offset: a position
// 6  an alignment step: a position and an alignment
// 7  a key to pack: packing, examination, eye, x, y and presentation in 1, 4, 1, 1, 1 and 4 bytes
// 8  a key to unpack: a packing in one byte and the key     9  a value to read
//
// A layout is the bits of its width, 16, 32 or 64, and the entries a node; a packing is 0 for two's complement and 1 for plus 128.
#![tactic(auto)]

mod archives;
mod builds;
mod checksum;
mod input;
mod output;
mod parts;

use input::next_u8;
use std::io;
use std::io::Read;

// Replays the question of a kind, and answers whether there is one.
fn replay_one<R: Read>(
    rt: &impl Print,
    input: &mut R,
    kind: u8,
    buffer: &mut [u8],
) -> io::Result<bool> {
    match kind {
        1 => archives::replay_case(rt, input, buffer)?,
        2 => builds::replay_build(rt, input)?,
        3 => parts::replay_distance(rt, input)?,
        4 => parts::replay_offset(rt, input)?,
        5 => parts::replay_absent(rt, input)?,
        6 => parts::replay_align(rt, input)?,
        7 => parts::replay_pack(rt, input)?,
        8 => parts::replay_unpack(rt, input)?,
        9 => parts::replay_value(rt, input)?,
        _ => {
            return Ok(false);
        }
    }
    Ok(true)
}

// Replays the questions and answers how many there were. Nothing says that the input ends, so they are counted up to a number that no run reaches.
fn replay_all<R: Read>(rt: &impl Print, input: &mut R, buffer: &mut [u8]) -> io::Result<u64> {
    for questions in 0..u64::MAX {
        let kind = next_u8(input)?;
        if !replay_one(rt, input, kind, buffer)? {
            return Ok(questions);
        }
    }
    Ok(u64::MAX)
}

// Replays the sample. The last line says how many questions there were, so that none can be lost unseen.
fn main(rt: HostRuntime) -> io::Result<()> {
    archives::replay_longest(&rt)?;
    let mut buffer = [0; 65536];
    let mut input = rt.stdin();
    let questions = replay_all(&rt, &mut input, &mut buffer)?;
    println!(rt; "questions {questions}")
}

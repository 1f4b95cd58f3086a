// Questions to the parts, to key packing and to the bits of values.
use crate::input::{next_i8, next_packing, next_u8, next_u32, next_u64};
use crate::output::{print_answer, print_refused};
use format::{KeyFields, Step};
use std::io;
use std::io::Read;

pub fn replay_distance<R: Read>(rt: &impl Print, input: &mut R) -> io::Result<()> {
    let from = next_u64(input)?;
    let to = next_u64(input)?;
    print_answer(rt, "distance", fieldmap::signed_offset(from, to))
}

pub fn replay_offset<R: Read>(rt: &impl Print, input: &mut R) -> io::Result<()> {
    let from = next_u64(input)?;
    let to = next_u64(input)?;
    print_answer(rt, "offset", fieldmap::offset32(from, to))
}

pub fn replay_absent<R: Read>(rt: &impl Print, input: &mut R) -> io::Result<()> {
    let at = next_u64(input)?;
    print_answer(rt, "absent", fieldmap::absent_offset(at))
}

pub fn replay_align<R: Read>(rt: &impl Print, input: &mut R) -> io::Result<()> {
    let position = next_u64(input)?;
    let alignment = next_u64(input)?;
    match fieldmap::align(position, alignment) {
        Ok(Step { next, zeros }) => println!(rt; "align {next} {zeros}"),
        Err(why) => print_refused(rt, "align", why),
    }
}

pub fn replay_pack<R: Read>(rt: &impl Print, input: &mut R) -> io::Result<()> {
    let packing = next_packing(input)?;
    let examination = next_u32(input)?;
    let eye = next_u8(input)?;
    let x = next_i8(input)?;
    let y = next_i8(input)?;
    let presentation = next_u32(input)?;
    let answer = fieldmap::pack(packing, examination, eye, x, y, presentation);
    print_answer(rt, "pack", answer)
}

pub fn replay_unpack<R: Read>(rt: &impl Print, input: &mut R) -> io::Result<()> {
    let packing = next_packing(input)?;
    let key = next_u64(input)?;
    let KeyFields {
        examination,
        eye,
        x,
        y,
        presentation,
    } = fieldmap::unpack(key, packing);
    println!(rt; "unpack {examination} {eye} {x} {y} {presentation}")
}

pub fn replay_value<R: Read>(rt: &impl Print, input: &mut R) -> io::Result<()> {
    let value = next_u64(input)?;
    let seen = if fieldmap::seen(value) { "seen " } else { "" };
    println!(rt; "value {seen}{}", fieldmap::threshold(value))
}

// What the questions are read from. At the input's end every number is 0.
use format::{Layout, Limits, Packing};
use std::io;
use std::io::Read;
use std::ops::Bound;

// Reads the next bytes; past the input's end they are 0.
fn next_bytes<const N: usize, R: Read>(input: &mut R) -> io::Result<[u8; N]> {
    let mut bytes = [0; N];
    listing::read_full(input, &mut bytes)?;
    Ok(bytes)
}

pub fn next_u8<R: Read>(input: &mut R) -> io::Result<u8> {
    Ok(u8::from_le_bytes(next_bytes(input)?))
}

pub fn next_i8<R: Read>(input: &mut R) -> io::Result<i8> {
    Ok(i8::from_le_bytes(next_bytes(input)?))
}

pub fn next_u32<R: Read>(input: &mut R) -> io::Result<u32> {
    Ok(u32::from_le_bytes(next_bytes(input)?))
}

pub fn next_u64<R: Read>(input: &mut R) -> io::Result<u64> {
    Ok(u64::from_le_bytes(next_bytes(input)?))
}

pub fn next_bound<R: Read>(input: &mut R) -> io::Result<Bound<u64>> {
    let kind = next_u8(input)?;
    Ok(codes::bound(kind, next_u64(input)?))
}

pub fn next_packing<R: Read>(input: &mut R) -> io::Result<Packing> {
    Ok(codes::packing(next_u8(input)?))
}

pub fn next_layout<R: Read>(input: &mut R) -> io::Result<Layout> {
    let bits = next_u8(input)?;
    Ok(codes::layout(bits, usize::from(next_u8(input)?)))
}

pub fn next_limits<R: Read>(input: &mut R) -> io::Result<Limits> {
    let longest = next_u64(input)? as usize;
    let depth = next_u64(input)? as usize;
    Ok(Limits { longest, depth })
}

// Fills the list with the next numbers.
fn next_numbers<R: Read>(input: &mut R, list: &mut [u64]) -> io::Result<()> {
    for number in list.iter_mut() {
        *number = next_u64(input)?;
    }
    Ok(())
}

// Fills the list from the next number on, in steps of the one after it; past the largest it goes on at 0.
fn next_steps<R: Read>(input: &mut R, list: &mut [u64]) -> io::Result<()> {
    let mut next = next_u64(input)?;
    let step = next_u64(input)?;
    for number in list.iter_mut() {
        *number = next;
        next = next.wrapping_add(step);
    }
    Ok(())
}

// Fills the front of the list with the next list, in the form that it names, and answers that front. Answers nothing and reads no further if the list
// is too short.
pub fn next_list<'a, R: Read>(input: &mut R, list: &'a mut [u64]) -> io::Result<Option<&'a [u64]>> {
    let length = next_u32(input)? as usize;
    let Some(front) = list.get_mut(..length) else {
        return Ok(None);
    };
    match next_u8(input)? {
        0 => next_numbers(input, front)?,
        _ => next_steps(input, front)?,
    }
    Ok(Some(front))
}

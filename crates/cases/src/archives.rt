// Questions to the readers.
use crate::builds::blank;
use crate::input::{
    next_bound, next_i8, next_layout, next_limits, next_packing, next_u8, next_u32, next_u64,
};
use crate::output::{print_answer, print_entries, print_refused};
use format::{Layout, Limits, Matched, Refusal, Walk};
use std::io;
use std::io::Read;

// An archive, and what it is read at and under.
#[derive(Clone, Copy)]
struct Case<'a> {
    layout: Layout,
    limits: Limits,
    archive: &'a [u8],
}

// Puts as many questions as the next number says.
fn replay_many<R: Read, Q: FnMut(&mut R) -> io::Result<()>>(
    input: &mut R,
    mut question: Q,
) -> io::Result<()>
    requires { Q.IsAlwaysCallable question }
{
    for _ in 0..next_u32(input)? {
        question(input)?;
    }
    Ok(())
}

// Prints the answer to a range, and the entries that it wrote.
fn print_range(
    rt: &impl Print,
    question: &str,
    answer: Result<Matched, Refusal>,
    keys: &[u64],
    values: &[u64],
) -> io::Result<()> {
    match answer {
        Ok(Matched { written, matching }) => {
            println!(rt; "{question} {written} of {matching}")?;
            print_entries(rt, keys, values, written)
        }
        Err(why) => print_refused(rt, question, why),
    }
}

impl Case<'_> {
    // Replays the walk. The lent lists differ in length, here and in the ranges: the shorter has 64 places.
    fn replay_walk(self, rt: &impl Print) -> io::Result<()> {
        let mut keys = [0; 80];
        let mut values = [0; 64];
        match fieldmap::walk(
            self.layout,
            self.limits,
            self.archive,
            &mut keys,
            &mut values,
        ) {
            Ok(Walk { written, count }) => {
                println!(rt; "walk {written} of {count}")?;
                print_entries(rt, &keys, &values, written)
            }
            Err(why) => print_refused(rt, "walk", why),
        }
    }

    // Replays the second form of lookup: prints the part's length, and the number that its eight bytes are.
    fn replay_bytes(self, rt: &impl Print, key: u64) -> io::Result<()> {
        let part = fieldmap::lookup_bytes(self.layout, self.limits, self.archive, key);
        let length = part.len();
        match part.first_chunk() {
            Some(bytes) => println!(rt; "bytes {length} {}", u64::from_le_bytes(*bytes)),
            None => println!(rt; "bytes {length}"),
        }
    }

    fn replay_lookup<R: Read>(self, rt: &impl Print, input: &mut R) -> io::Result<()> {
        let key = next_u64(input)?;
        match fieldmap::lookup(self.layout, self.limits, self.archive, key) {
            Ok(Some(entry)) => {
                println!(rt; "lookup {} {} {}", entry.key, entry.value, entry.position.0)?;
            }
            Ok(None) => println!(rt; "lookup none")?,
            Err(why) => print_refused(rt, "lookup", why)?,
        }
        self.replay_bytes(rt, key)
    }

    fn replay_range<R: Read>(self, rt: &impl Print, input: &mut R) -> io::Result<()> {
        let lower = next_bound(input)?;
        let upper = next_bound(input)?;
        let mut keys = [0; 64];
        let mut values = [0; 80];
        let answer = fieldmap::range(
            self.layout,
            self.limits,
            self.archive,
            lower,
            upper,
            &mut keys,
            &mut values,
        );
        print_range(rt, "range", answer, &keys, &values)
    }

    fn replay_column<R: Read>(self, rt: &impl Print, input: &mut R) -> io::Result<()> {
        let packing = next_packing(input)?;
        let examination = next_u32(input)?;
        let eye = next_u8(input)?;
        let a = next_i8(input)?;
        let b = next_i8(input)?;
        let mut keys = [0; 80];
        let mut values = [0; 64];
        let answer = fieldmap::column(
            self.layout,
            self.limits,
            self.archive,
            packing,
            examination,
            eye,
            a,
            b,
            &mut keys,
            &mut values,
        );
        print_range(rt, "column", answer, &keys, &values)
    }

    // Replays the questions to each reader.
    fn replay<R: Read>(self, rt: &impl Print, input: &mut R) -> io::Result<()> {
        let checked = fieldmap::check(self.layout, self.limits, self.archive);
        print_answer(rt, "check", checked)?;
        let certified = fieldmap::certify(self.layout, self.limits, self.archive);
        print_answer(rt, "certify", certified)?;
        self.replay_walk(rt)?;
        replay_many(input, |input| self.replay_lookup(rt, input))?;
        replay_many(input, |input| self.replay_range(rt, input))?;
        replay_many(input, |input| self.replay_column(rt, input))
    }
}

// Reads the next archive into the front of the buffer and replays it. Does nothing if it is too long for the buffer.
pub fn replay_case<R: Read>(rt: &impl Print, input: &mut R, buffer: &mut [u8]) -> io::Result<()> {
    let layout = next_layout(input)?;
    let limits = next_limits(input)?;
    let length = next_u32(input)? as usize;
    if let Some(archive) = buffer.get_mut(..length) {
        listing::read_full(input, archive)?;
        let case = Case {
            layout,
            limits,
            archive,
        };
        case.replay(rt, input)?;
    }
    Ok(())
}

fn check_common(rt: &impl Print, question: &str, bytes: &[u8]) -> io::Result<()> {
    let checked = fieldmap::check(Layout::COMMON, Limits::SERVER, bytes);
    print_answer(rt, question, checked)
}

// Checks the bytes, and all of them but the last.
fn check_longest(rt: &impl Print, bytes: &[u8]) -> io::Result<()> {
    check_common(rt, "too long", bytes)?;
    if let Some((_, longest)) = bytes.split_last() {
        check_common(rt, "longest", longest)?;
    }
    Ok(())
}

// Checks the shortest archive that is too long, and the longest that is not. The input does not have them.
pub fn replay_longest(rt: &impl Print) -> io::Result<()> {
    let bytes = blank();
    check_longest(rt, &bytes)
}

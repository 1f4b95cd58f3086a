// The text of an input, an archive with 32-bit pointers: a line that says whether it is certified, open or refused, and of an accepted archive each
// entry of the walk, key and value on a line. More than 65,536 bytes are refused. The text is `printed` of specs/Listing.antt.
#![tactic(auto)]

ghost use Rattle.std.specs.Prelude.{◌≡◌, [], ◌∷◌, ◌++◌, ◌+◌, ◌*◌, ◌≤◌, length, take, IfOk, OnOk, IfSome};
ghost use Rattle.std.specs.Io.KnownBytes.{Appends, Consumes};
ghost use Rattle.text.specs.Decimal.{decimal};
ghost use Rattle.listing.specs.Listing.{title, title_line, entry_line, first_lines, listing, printed};

use format::{Layout, Limits};
use std::io;
use std::io::{Read, Write};
use text::Text;

// The longest input that is listed, in bytes.
const LONGEST_INPUT: usize = 65536;

// More than the entries of any accepted archive of 65,536 bytes (proofs/Room.antt): a leaf has 96 bytes, an inner node 112, no two share a byte, and
// each has at most 5 entries of its own.
const MOST_ENTRIES: usize = 4096;

// Bytes for the longest first line, and for the longest line of an entry.
const LONGEST_TITLE: usize = 31;

const LONGEST_ENTRY: usize = 42;

// Bytes for the longest text.
const LONGEST_TEXT: usize = LONGEST_TITLE + LONGEST_ENTRY * MOST_ENTRIES;

// What the first line says: certified or only accepted, with the recorded count, or refused, with the refusal's number.
#[derive(Clone, Copy)]
enum Title {
    Certified(u64),
    Open(u64),
    Refused(u64),
}

// Tells what the first line says of an archive.
fn title_of(archive: &[u8]) -> Title
    ensures { result ≡ title archive.now }
{
    if let Ok(count) = fieldmap::certify(Layout::COMMON, Limits::SERVER, archive) {
        return Title::Certified(count as u64);
    }
    match fieldmap::check(Layout::COMMON, Limits::SERVER, archive) {
        Ok(count) => Title::Open(count as u64),
        Err(why) => Title::Refused(fieldmap::refusal_number(why)),
    }
}

// Puts a line of a word and a number behind the text.
#[tactic(auto, using(crate::proofs::Texts::room))]
fn put_counted(text: &mut Text<LONGEST_TEXT>, word: &[u8], number: u64)
    requires { length text.old + length word.now + 21 ≤ LONGEST_TEXT }
    ensures { text.new ≡ text.old ++ word.now ++ decimal number ++ (10 ∷ []) }
{
    text.push(word);
    text.push_decimal(number);
    text.push(b"\n");
}

// Puts the first line behind the text.
fn put_title(text: &mut Text<LONGEST_TEXT>, title: Title)
    requires { length text.old + LONGEST_TITLE ≤ LONGEST_TEXT }
    ensures { text.new ≡ text.old ++ title_line title }
{
    match title {
        Title::Certified(count) => put_counted(text, b"certified ", count),
        Title::Open(count) => put_counted(text, b"open ", count),
        Title::Refused(number) => put_counted(text, b"refused ", number),
    }
}

// Puts the line of an entry behind the text.
#[tactic(auto, using(crate::proofs::Texts::room))]
fn put_entry(text: &mut Text<LONGEST_TEXT>, key: u64, value: u64)
    requires { length text.old + LONGEST_ENTRY ≤ LONGEST_TEXT }
    ensures { text.new ≡ text.old ++ entry_line key value }
{
    text.push_decimal(key);
    text.push(b" ");
    text.push_decimal(value);
    text.push(b"\n");
}

// Puts the lines of the entries behind the text.
fn put_entries(text: &mut Text<LONGEST_TEXT>, keys: &[u64], values: &[u64])
    requires room { length text.old + LONGEST_ENTRY * length keys.now ≤ LONGEST_TEXT }
    requires pairs { length keys.now ≡ length values.now }
    ensures { text.new ≡ text.old ++ first_lines keys.now values.now (length keys.now) }
{
    for (key, value) in keys.iter().zip(values) {
        put_entry(text, *key, *value);
    }
}

// Puts the text of an archive together.
fn put_listing(text: &mut Text<LONGEST_TEXT>, archive: &[u8])
    requires small { length archive.now ≤ LONGEST_INPUT }
    requires empty { text.old ≡ [] }
    ensures { text.new ≡ listing archive.now }
{
    let mut keys = [0u64; MOST_ENTRIES];
    let mut values = [0u64; MOST_ENTRIES];
    put_title(text, title_of(archive));
    let walked = fieldmap::walk(
        Layout::COMMON,
        Limits::SERVER,
        archive,
        &mut keys,
        &mut values,
    );
    if let Ok(walk) = walked {
        put_entries(text, &keys[..walk.written], &values[..walk.written]);
    }
}

// Puts the text of an input of any length together.
fn put_text(text: &mut Text<LONGEST_TEXT>, input: &[u8])
    requires { text.old ≡ [] }
    ensures { text.new ≡ printed input.now }
{
    if input.len() > LONGEST_INPUT {
        put_title(text, Title::Refused(1));
    } else {
        put_listing(text, input);
    }
}

// Reads until the buffer is full or the input ends, and tells how many bytes it put at the buffer's front.
pub fn read_full<R: Read>(input: &mut R, buffer: &mut [u8]) -> io::Result<usize>
    ensures bound { IfOk result (λ n. n ≤ length buffer.new) }
    ensures consumed { IfOk result (λ n. Consumes (R.remaining input.old) (R.remaining input.new) (take n buffer.new)) }
    ensures bytes { IfOk result (λ n. IfSome (R.remaining input.old) (λ xs. take n buffer.new ≡ take (length buffer.old) xs)) }
{
    let mut done = 0;
    while done < buffer.len() {
        let n = input.read(&mut buffer[done..])?;
        if n == 0 {
            break;
        }
        done += n;
    }
    Ok(done)
}

// Reads an input and writes its text. One byte more than the longest input is read, since the text depends on no byte behind that one
// (specs/Laws.antt). The text is made before the input is read: a local that is made behind a `?` is cleared twice.
pub fn list<R: Read, W: Write>(input: &mut R, output: &mut W) -> io::Result<()>
    ensures { OnOk result (IfSome (R.remaining input.old)
        (λ bytes. Appends (W.contents output.old) (W.contents output.new) (printed bytes))) }
{
    let mut buffer = [0u8; LONGEST_INPUT + 1];
    let mut text: Text<LONGEST_TEXT> = Text::new();
    let read = read_full(input, &mut buffer)?;
    put_text(&mut text, &buffer[..read]);
    output.write_all(text.as_bytes())
}

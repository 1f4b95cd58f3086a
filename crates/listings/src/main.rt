// Lists each file that an argument names, with the file's name on a line before its text. It lists by the same function as the program `fieldlist`, on
// the inputs of data/: the longest that is listed, one byte more, none, open archives and each refusal.
#![tactic(auto)]

use std::env::{Env, FillError};
use std::fs::File;
use std::io;
use std::rt::Files;

// The text of a file, or why it cannot be opened.
fn list_path<R: Files + Print + Eprint>(rt: &R, path: &str) -> io::Result<()> {
    match File::open(rt, path) {
        Ok(mut file) => listing::list(&mut file, &mut io::writer(rt)),
        Err(e) => eprintln!(rt; "{path}: {e}"),
    }
}

// A name that is no UTF-8 text is no path of the standard library.
fn list_file<R: Files + Print + Eprint>(rt: &R, name: &[u8]) -> io::Result<()> {
    rt.write_all(name)?;
    rt.write_all(b"\n")?;
    match str::from_utf8(name) {
        Ok(path) => list_path(rt, path),
        Err(e) => eprintln!(rt; "{e}"),
    }
}

// An argument of more than 4,096 bytes counts as an empty name, which no file has.
fn main(rt: HostRuntime) -> io::Result<()> {
    let mut name = [0u8; 4096];
    for index in 1..usize::MAX {
        let length = match rt.arg(index, &mut name) {
            Ok(length) => length,
            Err(FillError::TooLong) => 0,
            Err(FillError::NotPresent) => break,
        };
        list_file(&rt, &name[..length])?;
    }
    Ok(())
}

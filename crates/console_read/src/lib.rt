// Bytes as the programs read them: arguments, files, standard input. No contract can say which bytes these have; how much was read is told by what the system's
// calls answered.
#![tactic(auto)]

ghost use Rattle.std.specs.Prelude.{◌≡◌, ◌≤◌, length, replicate, None};
ghost use Rattle.console_read.specs.Counts.{ReadOnce, InputRead, FileRead, ArgumentRead};

use console_failures::fail;
use std::env::{Env, FillError};
use std::fmt::Display;
use std::fs::File;
use std::io::Read;
use std::str;

// Bytes that hold any path.
pub const PATH: usize = 4096;

// Bytes of a piece of a long text.
pub const PIECE: usize = 65536;

// How many arguments there are, with the program's name.
pub fn argument_count(rt: &HostRuntime) -> usize {
    let mut byte = [0u8; 1];
    for i in 0..usize::MAX {
        if let Err(FillError::NotPresent) = rt.arg(i, &mut byte) {
            return i;
        }
    }
    usize::MAX
}

// How long an argument is that stands in the buffer; 0 where there is none, or where it is too long.
pub fn argument_or_empty(rt: &HostRuntime, i: usize, word: &mut [u8]) -> usize
    ensures { result ≤ length word.new }
{
    rt.arg(i, word).unwrap_or(0)
}

// Zeros, which hold any path.
pub fn buffer() -> [u8; PATH]
    ensures size { 4096 ≡ length result }
    ensures zeros { result ≡ replicate 4096 0 }
{
    [0; PATH]
}

// Zeros, a piece of a long text.
pub fn large_buffer() -> [u8; PIECE]
    ensures size { 65536 ≡ length result }
    ensures zeros { result ≡ replicate 65536 0 }
{
    [0; PIECE]
}

// How long an argument is that stands in the buffer. Where it does not, standard error has the reason.
pub fn argument(rt: &HostRuntime, i: usize, word: &mut [u8]) -> Option<usize>
    ensures { ArgumentRead (length word.new) result }
{
    match rt.arg(i, word) {
        Ok(count) => Some(count),
        Err(FillError::NotPresent) => unread(rt, b"argument", "Invalid argument"),
        Err(FillError::TooLong) => unread(rt, b"argument", "File name too long"),
    }
}

// How many bytes standard input has. Where a call failed, standard error has the reason, and the error is how many bytes had been read before it.
pub fn read_input(rt: &HostRuntime, text: &mut [u8]) -> Result<usize, usize>
    ensures { InputRead (length text.new) 0 result }
{
    let mut input = rt.stdin();
    read_all(rt, &mut input, b"standard input", text)
}

// How many bytes a file has, or the error as of standard input.
pub fn read_file(rt: &HostRuntime, path: &[u8], text: &mut [u8]) -> Result<usize, usize>
    ensures { FileRead (length text.new) result }
{
    match open(rt, path) {
        Some(mut file) => read_all(rt, &mut file, path, text),
        None => Err(0),
    }
}

// A path is text: a name that is not is told as one that no file has.
pub fn open(rt: &HostRuntime, path: &[u8]) -> Option<File> {
    let Ok(name) = str::from_utf8(path) else {
        fail(rt, path, "No such file or directory");
        return None;
    };
    match File::open(rt, name) {
        Ok(file) => Some(file),
        Err(why) => {
            fail(rt, path, why);
            None
        }
    }
}

// Reads until the buffer is full or the input ends.
fn read_all<R: Read>(
    rt: &HostRuntime,
    file: &mut R,
    name: &[u8],
    text: &mut [u8],
) -> Result<usize, usize>
    ensures { InputRead (length text.new) 0 result }
{
    let mut filled: usize = 0;
    while filled < text.len() {
        let Some(length) = read_some(rt, file, name, &mut text[filled..]) else {
            return Err(filled);
        };
        if length == 0 {
            return Ok(filled);
        }
        filled += length;
    }
    Ok(filled)
}

// Reads once: nothing at the end of the input. Where the call failed, standard error has the reason.
pub fn read_some<R: Read>(
    rt: &HostRuntime,
    file: &mut R,
    name: &[u8],
    part: &mut [u8],
) -> Option<usize>
    ensures { ReadOnce (length part.old) result }
{
    match file.read(part) {
        Ok(length) => Some(length),
        Err(why) => unread(rt, name, why),
    }
}

// Where a call failed, so that nothing was read.
fn unread<D: Display + Drop>(rt: &HostRuntime, what: &[u8], why: D) -> Option<usize>
    ensures { result ≡ None }
{
    fail(rt, what, why);
    None
}

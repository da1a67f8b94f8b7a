// What the program needs of files beyond std's calls: a buffer filled from a reader, files by names of UTF-8 text in
// bytes, and a line that says what failed. Nothing is allocated.
#![tactic(auto)]

ghost use Rattle.std.specs.Prelude.{◌<◌, ◌≤◌, length, take, OnOk};
ghost use Rattle.std.specs.Io.KnownBytes.{Consumes, IsAtEnd};
ghost use Rattle.streams.specs.Complaint.{Complains};

use arrayvec::ArrayVec;
use std::fs::{File, Files, OpenOptions};
use std::io::{Error, Read, Write};
use std::{fs, io};

// ---- a buffer filled

// How many bytes of a buffer were read, from its start on. The reading ends where no room or no byte is left; or
// with a read that failed.
#[derive(Clone, Copy)]
pub struct Front {
    pub length: usize,
    pub ended: io::Result<()>,
}

// Fills a buffer, in as many reads as it takes. What a failed read leaves behind the front isn't known.
pub fn read_full<R: Read>(from: &mut R, buffer: &mut [u8]) -> Front
    ensures within { result.length ≤ length buffer.new }
    ensures bytes { Consumes (R.remaining from.old) (R.remaining from.new) (take result.length buffer.new) }
    ensures stop { OnOk result.ended (result.length < length buffer.new → IsAtEnd (R.remaining from.new)) }
{
    let mut done = 0;
    while done < buffer.len() {
        match from.read(&mut buffer[done..]) {
            Ok(0) => break,
            Ok(n) => done += n,
            Err(why) => {
                return Front {
                    length: done,
                    ended: Err(why),
                };
            }
        }
    }
    Front {
        length: done,
        ended: Ok(()),
    }
}

// ---- what failed

// The bytes that an error's message may have; the system's are far shorter.
const LONGEST_MESSAGE: usize = 320;

// The library puts the error's number behind the system's words, in brackets.
const NUMBER: &[u8] = b" (os error ";

// The system's words: a message without the number behind them.
fn words_of(message: &[u8]) -> &[u8] {
    match message
        .windows(NUMBER.len())
        .position(|part| part == NUMBER)
    {
        Some(i) => &message[..i],
        None => message,
    }
}

// Writes a line: what failed, as the caller names it, a colon and why.
pub fn fail<W: Write>(to: &mut W, what: &[u8], error: Error) -> io::Result<()>
    ensures { OnOk result (Complains (W.contents to.old) (W.contents to.new) what.now) }
{
    let mut message = ArrayVec::<u8, LONGEST_MESSAGE>::new();
    // A message that has no room is cut.
    let _ = write!(message, "{error}");
    to.write_all(what)?;
    to.write_all(b": ")?;
    to.write_all(words_of(&message))?;
    to.write_all(b"\n")
}

// ---- files

// The system's number for bytes that are no text.
const NOT_TEXT: i32 = 84;

// A name as the library takes it, which knows names of text alone.
fn path_of(name: &[u8]) -> io::Result<&str> {
    std::str::from_utf8(name).map_err(|_| Error::from_raw_os_error(NOT_TEXT))
}

// Opens a file for reading.
pub fn open_read<F: Files>(files: &F, name: &[u8]) -> io::Result<F::File> {
    File::open(files, path_of(name)?)
}

// Makes a new file, open for writing; fails where there is one of that name.
pub fn create<F: Files>(files: &F, name: &[u8]) -> io::Result<F::File> {
    OpenOptions::new()
        .write(true)
        .create_new(true)
        .open(files, path_of(name)?)
}

// Removes a file.
pub fn unlink<F: Files>(files: &F, name: &[u8]) -> io::Result<()> {
    fs::remove_file(files, path_of(name)?)
}

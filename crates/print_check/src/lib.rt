// A model image checked, and its report printed in large pieces; or its fields listed.
#![tactic(auto)]

ghost use Rattle.std.specs.Prelude.{◌≡◌, ◌<◌, ◌≤◌, length, take, IfOk, OnOk, None};
ghost use Rattle.std.specs.Io.KnownBytes.{Appends, Consumes};
ghost use Rattle.numbers.specs.Bytes.{word_range};
ghost use Rattle.oce_model.specs.Format.{longest_image};
ghost use Rattle.oce_model.specs.Image.{fields};
ghost use Rattle.oce_model.specs.Refusals.{refusal};
ghost use Rattle.outcome.specs.Answer.{answer, filled_after};
ghost use Rattle.printed.specs.Pieces.{Row};
ghost use Rattle.printed.specs.Printed.{lines_from, printed};
ghost use Rattle.field_lines.specs.Lines.{field_lines};
ghost use Rattle.print_check.specs.Outcome.{longest_report, lent_report, Reported};

use arrayvec::ArrayVec;
use field_lines::put_fields;
use image_records::{Image, Tables};
use oce_model::LONGEST_IMAGE;
use oce_validate::check;
use outcome::Answer;
use printed::{first_line, put_lines};
use std::fs::Files;
use std::io;
use std::io::{Error, ErrorKind, Read, Write};
use streams::{fail, open_read, read_full};

// The bytes of a piece.
const PIECE: usize = 65536;

// The bytes that are lent for a report.
const LONGEST_REPORT: usize = 65535;

// Prints the lines of a report's diagnostics, as many as count says.
pub fn print_lines<W: Write>(
    to: &mut W,
    image: &Image,
    report: &[u8],
    count: usize,
) -> io::Result<()>
    requires { (count < word_range) × Row report.now count }
    ensures { OnOk result (Appends (W.contents to.old) (W.contents to.new) (lines_from image.now report.now 0 count)) }
{
    let mut out = ArrayVec::<u8, PIECE>::new();
    let mut next = 0;
    while next < count {
        next = put_lines(image, report, next, count, &mut out);
        to.write_all(&out)?;
        out.clear();
    }
    Ok(())
}

// The same for the bytes of an image to which no refusal applies; it is accepted once for all lines. Inlined, so that
// a single check needs no more of the stack.
#[inline(always)]
pub fn print_report<W: Write>(
    to: &mut W,
    image: &[u8],
    report: &[u8],
    count: usize,
) -> io::Result<()>
    requires { (refusal image.now ≡ None) × (count < word_range) × Row report.now count }
    ensures { OnOk result (Appends (W.contents to.old) (W.contents to.new) (lines_from image.now report.now 0 count)) }
{
    let mut tables = Tables::EMPTY;
    match Image::accept(image, &mut tables) {
        Ok(image) => print_lines(to, &image, report, count),
        Err(_) => unreachable!(),
    }
}

// Prints an answer, and the diagnostics of the report that it counts.
fn print_all<W: Write>(to: &mut W, image: &[u8], report: &[u8], answer: Answer) -> io::Result<()>
    requires { Reported image.now answer report.now }
    ensures { OnOk result (Appends (W.contents to.old) (W.contents to.new) (printed image.now answer)) }
{
    to.write_all(&first_line(answer))?;
    match answer {
        Ok(counted) => print_report(to, image, report, counted.total()),
        Err(_) => Ok(()),
    }
}

// What a check answers, and whether all of its report was printed.
#[derive(Clone, Copy)]
pub struct Outcome {
    pub answer: Answer,
    pub printed: io::Result<()>,
}

// Checks an image and prints its report; filled gets the filled image, where there is no refusal.
#[tactic(auto, unfolding(crate::specs::Outcome::lent_report))]
pub fn print_check<W: Write>(to: &mut W, image: &[u8], filled: &mut [u8]) -> Outcome
    ensures answer { result.answer ≡ answer image.now (length filled.old) longest_report }
    ensures filled { filled.new ≡ filled_after image.now filled.old lent_report }
    ensures printed { OnOk result.printed (Appends (W.contents to.old) (W.contents to.new) (printed image.now result.answer)) }
{
    let mut report = [0u8; LONGEST_REPORT];
    let answer = check(image, filled, &mut report);
    Outcome {
        answer,
        printed: print_all(to, image, &report, answer),
    }
}

// Prints a line for each field of an image, up to the first that runs past its end. No image that is longer than
// what is taken is listed.
pub fn print_fields<W: Write>(to: &mut W, image: &[u8]) -> io::Result<()>
    ensures short { OnOk result (length image.now ≤ longest_image) }
    ensures printed { OnOk result (Appends (W.contents to.old) (W.contents to.new) (field_lines (fields image.now))) }
{
    if LONGEST_IMAGE < image.len() {
        return Err(Error::from(ErrorKind::FileTooLarge));
    }
    let mut out = ArrayVec::<u8, PIECE>::new();
    let mut next = Some(0);
    while let Some(at) = next {
        next = put_fields(image, at, &mut out);
        to.write_all(&out)?;
        out.clear();
    }
    Ok(())
}

// Reads an open file to the start of a buffer, as much of it as that holds, and gives how many bytes; why, if none
// could be read.
pub fn read_from<R: Read>(from: &mut R, image: &mut [u8]) -> io::Result<usize>
    ensures within { IfOk result (λ n. n ≤ length image.new) }
    ensures bytes { IfOk result (λ n. Consumes (R.remaining from.old) (R.remaining from.new) (take n image.new)) }
{
    let front = read_full(from, image);
    match front.ended {
        Err(why) if front.length == 0 => Err(why),
        _ => Ok(front.length),
    }
}

// Reads a file in the same way; says why if it can't be read.
pub fn read_image<F: Files, W: Write>(
    files: &F,
    complaints: &mut W,
    name: &[u8],
    image: &mut [u8],
) -> io::Result<usize>
    ensures { IfOk result (λ n. n ≤ length image.new) }
{
    let read = match open_read(files, name) {
        Ok(mut file) => read_from(&mut file, image),
        Err(why) => Err(why),
    };
    if let Err(why) = read {
        let _ = fail(complaints, name, why);
    }
    read
}

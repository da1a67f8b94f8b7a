// A batch of images checked, and its report printed, image by image.
#![tactic(auto)]

ghost use Rattle.std.specs.Prelude.{◌≡◌, ◌<◌, length, take, IfOk, OnOk};
ghost use Rattle.std.specs.Io.KnownBytes.{Appends};
ghost use Rattle.batch.specs.Fields.{image_in, images};
ghost use Rattle.batch.specs.Answer.{output_after};
ghost use Rattle.printed_batch.specs.PrintedBatch.{image_text, image_texts, printed_batch};
ghost use Rattle.print_batch.specs.Printing.{Left, Part};
ghost use Rattle.print_batch.specs.Reading.{longest_batch, read_output, PrintedAs, ReadAs, SomeRead, PrintedFrom};

use base::part_of;
use batch::{SUMMARY_SIZE, count_of, size_of};
use batch_check::check_batch;
use batch_framing::image_in;
use image_framing::Fields;
use oce_diag::DIAGNOSTIC_SIZE;
use oce_model::{Field, LONGEST_IMAGE};
use outcome::Answer;
use print_check::{print_report, read_from};
use printed_batch::{answer_in, image_lines, refusal_line};
use std::io;
use std::io::{Error, ErrorKind, Read, Write};

// An output that is printed has no more bytes, so that each of its counts has room in four.
const LONGEST_OUTPUT: usize = u32::MAX as usize;

// A batch that is read has no more bytes: sixty-four images of nearly full size.
pub const LONGEST_BATCH: usize = 64 * (LONGEST_IMAGE + 1);

// One more, to notice a batch that is longer.
const READ_BATCH: usize = LONGEST_BATCH + 1;

// The bytes that are lent for the output of a batch that is read: half as many.
const READ_OUTPUT: usize = LONGEST_BATCH / 2;

// ---- one image

// Prints the image in a field, whose part of the output begins at o with its answer.
fn print_image<W: Write>(
    to: &mut W,
    batch: &[u8],
    f: Field,
    output: &[u8],
    o: usize,
    answer: Answer,
) -> io::Result<()>
    requires { Part batch.now f output.now o answer }
    ensures { OnOk result (Appends (W.contents to.old) (W.contents to.new) (image_text f.ord (image_in batch.now f))) }
{
    to.write_all(&image_lines(f.ord as u32, answer))?;
    let count = count_of(answer);
    if count == 0 {
        return Ok(());
    }
    print_report(
        to,
        image_in(batch, f),
        part_of(output, o + SUMMARY_SIZE, DIAGNOSTIC_SIZE * count),
        count,
    )
}

// ---- all of them

// Prints the images of a batch that was checked: n bytes were written to the output, which is printed if it isn't too
// long.
fn print_images<W: Write>(to: &mut W, batch: &[u8], output: &[u8], n: usize) -> io::Result<()>
    requires { Left batch.now output.now n }
    ensures { OnOk result (Appends (W.contents to.old) (W.contents to.new) (image_texts 0 (images batch.now))) }
{
    if LONGEST_OUTPUT < n {
        return Err(Error::from(ErrorKind::FileTooLarge));
    }
    let mut o = 0;
    for f in Fields::of(batch) {
        let answer = answer_in(output, o);
        print_image(to, batch, f, output, o, answer)?;
        o += size_of(answer);
    }
    Ok(())
}

// Checks a batch and prints its refusal, or its images one after the other. The output gets what
// `check_batch` leaves there.
pub fn print_batch<W: Write>(to: &mut W, batch: &[u8], output: &mut [u8]) -> io::Result<()>
    ensures output { output.new ≡ output_after batch.now output.old }
    ensures printed { OnOk result (Appends (W.contents to.old) (W.contents to.new) (printed_batch batch.now (length output.old))) }
{
    match check_batch(batch, output) {
        Err(refusal) => to.write_all(&refusal_line(refusal)),
        Ok(n) => print_images(to, batch, output, n),
    }
}

// ---- a batch that is read

// Why a batch isn't printed: nothing of it could be read; it is longer than what is taken; not all could be written.
#[derive(Clone, Copy)]
pub enum Unprinted {
    Unreadable(Error),
    TooLong,
    NotWritten(Error),
}

// Prints a batch that was read, unless it is longer than what is taken.
fn print_read<W: Write>(to: &mut W, batch: &[u8], output: &mut [u8]) -> Result<(), Unprinted>
    ensures ending { PrintedAs batch.now output.old output.new result }
    ensures printed { OnOk result (Appends (W.contents to.old) (W.contents to.new) (printed_batch batch.now (length output.old))) }
{
    if LONGEST_BATCH < batch.len() {
        return Err(Unprinted::TooLong);
    }
    print_batch(to, batch, output).map_err(Unprinted::NotWritten)
}

// Prints the batch that was read to the start of a buffer, which has room to notice one that is longer.
fn print_input<W: Write>(
    to: &mut W,
    read: io::Result<usize>,
    buffer: &[u8],
    output: &mut [u8],
) -> Result<(), Unprinted>
    requires { longest_batch < length buffer.now }
    ensures ending { ReadAs read buffer.now output.old output.new result }
    ensures printed { IfOk read (λ n. OnOk result (Appends (W.contents to.old) (W.contents to.new) (printed_batch (take n buffer.now) (length output.old)))) }
{
    match read {
        Ok(n) => print_read(to, part_of(buffer, 0, n), output),
        Err(why) => Err(Unprinted::Unreadable(why)),
    }
}

// Reads a batch of an open file to such a buffer and prints it.
fn read_and_print<W: Write, R: Read>(
    to: &mut W,
    from: &mut R,
    buffer: &mut [u8],
    output: &mut [u8],
) -> Result<(), Unprinted>
    requires { longest_batch < length buffer.old }
    ensures ending { SomeRead buffer.new output.old output.new result }
    ensures printed { OnOk result (PrintedFrom (R.remaining from.old) (R.remaining from.new) (length output.old) (W.contents to.old) (W.contents to.new)) }
{
    let read = read_from(from, buffer);
    print_input(to, read, buffer, output)
}

// The same with buffers of its own. Its frame is large: called from one place alone it would be inlined there.
#[inline(never)]
pub fn print_batch_from<W: Write, R: Read>(to: &mut W, from: &mut R) -> Result<(), Unprinted>
    ensures { OnOk result (PrintedFrom (R.remaining from.old) (R.remaining from.new) read_output (W.contents to.old) (W.contents to.new)) }
{
    let mut buffer = [0u8; READ_BATCH];
    let mut output = [0u8; READ_OUTPUT];
    read_and_print(to, from, &mut buffer, &mut output)
}

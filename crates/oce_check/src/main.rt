// Checks a model image and prints its report: of standard input, or of the file that an argument names.
// A second argument names a new file for the filled image, or is - for standard output. After --fields the fields of
// an image are listed, after --batch a batch of images is checked.
#![tactic(auto)]

use base::part_of;
use oce_model::LONGEST_IMAGE;
use print_batch::{LONGEST_BATCH, Unprinted, print_batch_from};
use print_check::{print_check, print_fields, read_image};
use std::env::{Env, FillError};
use std::fmt;
use std::io::{Error, Write};
use streams::{create, fail, open_read, read_full, unlink};

// One byte more than the longest image, to notice one that is longer.
const READ: usize = LONGEST_IMAGE + 1;

// No file has a longer name.
const LONGEST_NAME: usize = 4096;

// Which arguments there are; the program's own name is number 0.
const FIRST: usize = 1;

const SECOND: usize = 2;

// The name, both arguments, and one to notice that there are more.
const MOST_ARGS: usize = SECOND + 2;

// What --help prints.
const HELP: &[u8] = b"\
oce_check checks a control model and prints its report.

  oce_check                  the image on standard input
  oce_check IMAGE            the image in a file
  oce_check IMAGE FILLED     and writes the filled image to a new file, or for - behind the report
  oce_check --fields IMAGE   lists the fields of the image in a file
  oce_check --batch          the images of a batch on standard input
  oce_check --batch BATCH    the images of a batch in a file

The first line is 'errors N warnings M' or 'refused N at M'; a line a diagnostic follows:
severity, code, rule and detail, place, subject. A refused image gives no filled image.
A line of --fields has a field's offset, tag and length, up to the first that runs past the end.
After --batch a line 'image I', I from 0, stands before each image's lines; a refused batch gives one line.
";

// ---- what is said; that it can't be written stops nothing

// Writes to standard output.
fn print(rt: &HostRuntime, text: &[u8]) {
    let _ = rt.stdout().write_all(text);
}

// A line on standard error that names the program.
fn complain<D: fmt::Display + Drop>(rt: &HostRuntime, text: D) {
    let _ = writeln!(rt.stderr(), "oce_check: {text}");
}

// A line on standard error: what failed, and the system's words for why.
fn complain_of(rt: &HostRuntime, what: &[u8], why: Error) {
    let _ = fail(&mut rt.stderr(), what, why);
}

// ---- the arguments

// How many there are, the program's own name among them, and no more than that.
fn arg_count(rt: &HostRuntime) -> usize {
    (0..MOST_ARGS)
        .find(|&i| matches!(rt.arg(i, &mut []), Err(FillError::NotPresent)))
        .unwrap_or(MOST_ARGS)
}

// Goes on with argument i; says so if it is too long.
fn with_argument<F: FnOnce(&[u8])>(rt: &HostRuntime, i: usize, next: F)
    requires { F.IsAlwaysCallable next }
{
    let mut name = [0u8; LONGEST_NAME];
    match rt.arg(i, &mut name) {
        Ok(n) => next(&name[..n]),
        Err(_) => complain(
            rt,
            if i == FIRST {
                "the first argument is too long"
            } else {
                "the second argument is too long"
            },
        ),
    }
}

// ---- one image

// Writes the filled image to a new file, and says why if it can't.
fn write_filled(rt: &HostRuntime, name: &[u8], filled: &[u8]) {
    match create(rt, name) {
        Ok(mut file) => {
            if let Err(why) = file.write_all(filled) {
                complain_of(rt, name, why);
                let _ = unlink(rt, name);
            }
        }
        Err(why) => complain_of(rt, name, why),
    }
}

// The same, but for - to standard output.
fn write_filled_as(rt: &HostRuntime, name: &[u8], filled: &[u8]) {
    match name {
        b"-" => print(rt, filled),
        _ => write_filled(rt, name, filled),
    }
}

// Checks an image; argument i, if there is one, names a new file for the filled image.
fn check_image(rt: &HostRuntime, image: &[u8], i: usize) {
    let mut filled = [0u8; LONGEST_IMAGE];
    let outcome = print_check(&mut rt.stdout(), image, &mut filled);
    if outcome.printed.is_err() {
        complain(rt, "not all of the report could be written");
    }
    if arg_count(rt) <= i {
        return;
    }
    match outcome.answer {
        Ok(_) => with_argument(rt, i, |name| {
            write_filled_as(rt, name, part_of(&filled, 0, image.len()));
        }),
        Err(_) => complain(rt, "a refused image gives no filled image"),
    }
}

// Checks the image on standard input.
fn check_stdin(rt: &HostRuntime) {
    let mut bytes = [0u8; READ];
    let n = read_full(&mut rt.stdin(), &mut bytes).length;
    check_image(rt, &bytes[..n], FIRST);
}

// Checks the image in a file.
fn check_file(rt: &HostRuntime, name: &[u8]) {
    let mut bytes = [0u8; READ];
    if let Ok(n) = read_image(rt, &mut rt.stderr(), name, &mut bytes) {
        check_image(rt, &bytes[..n], SECOND);
    }
}

// Lists the fields of the image in a file.
fn list_file(rt: &HostRuntime, name: &[u8]) {
    let mut bytes = [0u8; READ];
    let Ok(n) = read_image(rt, &mut rt.stderr(), name, &mut bytes) else {
        return;
    };
    if print_fields(&mut rt.stdout(), &bytes[..n]).is_err() {
        complain(rt, "not all of the fields could be listed");
    }
}

// Lists the fields of the image that the second argument names.
fn list_named(rt: &HostRuntime, count: usize) {
    if count <= SECOND {
        complain(
            rt,
            "--fields needs an image; oce_check --help tells its use",
        );
        return;
    }
    with_argument(rt, SECOND, |name| list_file(rt, name));
}

// ---- many images

// Says what went wrong with a batch; name is what complaints call its file.
fn complain_of_batch(rt: &HostRuntime, why: Unprinted, name: &[u8]) {
    match why {
        Unprinted::Unreadable(why) => complain_of(rt, name, why),
        Unprinted::TooLong => complain(
            rt,
            format_args!("the batch is longer than {LONGEST_BATCH} bytes"),
        ),
        Unprinted::NotWritten(_) => complain(rt, "not all of the report could be written"),
    }
}

// Checks the batch in a file.
fn check_batch_file(rt: &HostRuntime, name: &[u8]) {
    match open_read(rt, name) {
        Ok(mut file) => {
            if let Err(why) = print_batch_from(&mut rt.stdout(), &mut file) {
                complain_of_batch(rt, why, name);
            }
        }
        Err(why) => complain_of(rt, name, why),
    }
}

// Checks a batch of standard input, or of the file that the second argument names.
fn check_images(rt: &HostRuntime, count: usize) {
    if count <= SECOND {
        if let Err(why) = print_batch_from(&mut rt.stdout(), &mut rt.stdin()) {
            complain_of_batch(rt, why, b"standard input");
        }
        return;
    }
    with_argument(rt, SECOND, |name| check_batch_file(rt, name));
}

// ---- what the first argument asks for

// An option, or the name of an image's file.
fn run(rt: &HostRuntime, first: &[u8], count: usize) {
    match first {
        b"--help" => print(rt, HELP),
        b"--fields" => list_named(rt, count),
        b"--batch" => check_images(rt, count),
        _ => check_file(rt, first),
    }
}

fn main(rt: HostRuntime) {
    let count = arg_count(&rt);
    if count <= FIRST {
        check_stdin(&rt);
        return;
    }
    if SECOND + 1 < count {
        complain(
            &rt,
            "more than two arguments; oce_check --help tells its use",
        );
        return;
    }
    with_argument(&rt, FIRST, |first| run(&rt, first, count));
}

// Replays the oracle's stored answers (docs/STORED_ANSWERS.md): checks each image of the files that its
// arguments name, and says how many are refused, and which of them not as the oracle has it: by refusal,
// counts, a diagnostic, or the filled image. The last line sums up the files that should agree.
#![tactic(auto)]

use agreement::{Difference, compare};
use oce_model::Refusal;
use std::env::{Env, FillError};
use std::fmt;
use std::fs::Files;
use stored::{FIRST_RECORD, Record, is_stored, record_at, record_count};
use streams::{open_read, read_full};

// No record of a file has more bytes.
const LONGEST_RECORD: usize = 131072;

// No file is longer: its first bytes, and such a record.
const LONGEST_FILE: usize = FIRST_RECORD + LONGEST_RECORD;

// No file has a longer name.
const LONGEST_NAME: usize = 4096;

// With this the name of a file begins whose answers are wrong on purpose.
const WRONG: &[u8] = b"wrong";

// ---- sums

// Of one file or of several.
#[derive(Clone, Copy, Default)]
struct Sum {
    pub images: u64,
    pub refused: u64,
    pub differ: u64,
    // Files that couldn't be gone through.
    pub failed: u64,
}

impl Sum {
    // Both added up.
    fn plus(self, other: Sum) -> Sum {
        Sum {
            images: self.images.wrapping_add(other.images),
            refused: self.refused.wrapping_add(other.refused),
            differ: self.differ.wrapping_add(other.differ),
            failed: self.failed.wrapping_add(other.failed),
        }
    }
}

impl fmt::Display for Sum {
    fn fmt<W: fmt::Write>(&self, f: &mut fmt::Formatter<W>) -> fmt::Result {
        let Sum {
            images,
            refused,
            differ,
            failed,
        } = *self;
        write!(f, "{images} images {refused} refused {differ} differ")?;
        if failed > 0 {
            write!(f, " {failed} files failed")?;
        }
        Ok(())
    }
}

// ---- printing; that it can't be written stops nothing

// A refusal as it is told: its number and offset, 0 where there is none.
#[derive(Clone, Copy)]
struct Told(Option<Refusal>);

impl fmt::Display for Told {
    fn fmt<W: fmt::Write>(&self, f: &mut fmt::Formatter<W>) -> fmt::Result {
        let (number, offset) = match self.0 {
            Some(refusal) => (refusal.number, refusal.offset),
            None => (0, 0),
        };
        write!(f, "{number} at {offset}")
    }
}

// A file by its name, and where lines about it go.
#[derive(Drop)]
struct Named<'a, P> {
    to: &'a P,
    name: &'a [u8],
}

impl<P: Print> Named<'_, P> {
    // The name, then the rest of a line about it.
    fn print_line<D: fmt::Display + Drop>(&self, rest: D) {
        let _ = self.to.write_all(self.name);
        let _ = self.to.println(rest);
    }

    // Says how record k differs.
    fn print_difference(&self, k: usize, r: Record, found: Difference) {
        match found {
            Difference::Refusal(here) => {
                let oracle = Told(Some(r.answer.refusal));
                let here = Told(here);
                self.print_line(format_args!(" record {k} oracle {oracle} here {here}"));
            }
            Difference::Counts => {
                self.print_line(format_args!(" record {k} errors and warnings differ"));
            }
            Difference::Diagnostic(n) => {
                self.print_line(format_args!(" record {k} differs from diagnostic {n}"));
            }
            Difference::Filled => {
                self.print_line(format_args!(" record {k} filled image differs"));
            }
        }
    }

    // Says why it can't be gone through.
    fn fail(&self, why: &str) -> Sum {
        self.print_line(why);
        Sum {
            failed: 1,
            ..Sum::default()
        }
    }

    // ---- its records

    // Record k.
    fn replay_record(&self, file: &[u8], k: usize, r: Record) -> Sum {
        let found = compare(file, r);
        if let Err(difference) = found {
            self.print_difference(k, r, difference);
        }
        Sum {
            images: 1,
            refused: u64::from(r.answer.refusal.number != 0),
            differ: u64::from(found.is_err()),
            failed: 0,
        }
    }

    // All records, as many as the file says it has: where the last ends, and what they give. None where one doesn't
    // fit.
    fn replay_records(&self, file: &[u8]) -> Option<(usize, Sum)> {
        let mut at = FIRST_RECORD;
        let mut sum = Sum::default();
        for k in 0..record_count(file) {
            let r = record_at(file, at)?;
            sum = sum.plus(self.replay_record(file, k, r));
            at = r.end;
        }
        Some((at, sum))
    }

    // Its answers are wrong on purpose, by its name: it isn't summed up with the others.
    fn is_wrong(&self) -> bool {
        self.name.starts_with(WRONG)
    }

    // Its bytes: the records, and a line that sums them up.
    fn replay_bytes(&self, file: &[u8]) -> Sum {
        if !is_stored(file) {
            return self.fail(" isn't a file of stored answers of version 1");
        }
        let Some((end, sum)) = self.replay_records(file) else {
            return self.fail(" has a record that doesn't fit");
        };
        if end != file.len() {
            return self.fail(" doesn't end with its last record");
        }
        self.print_line(format_args!(" {sum}"));
        if self.is_wrong() {
            return Sum::default();
        }
        sum
    }
}

// ---- one file

// A file: its bytes, or why it can't be gone through.
fn replay_file<R: Files + Print>(rt: &R, name: &[u8]) -> Sum {
    let named = Named { to: rt, name };
    match open_read(rt, name) {
        Ok(mut from) => {
            let mut file = [0u8; LONGEST_FILE + 1];
            let n = read_full(&mut from, &mut file).length;
            if n == 0 {
                return named.fail(" is empty or can't be read");
            }
            if LONGEST_FILE < n {
                return named.fail(" is too long");
            }
            named.replay_bytes(&file[..n])
        }
        Err(_) => named.fail(" can't be opened"),
    }
}

// Argument i, if there is one.
fn replay_argument<R: Env + Files + Print>(rt: &R, i: usize) -> Option<Sum> {
    let mut name = [0u8; LONGEST_NAME];
    match rt.arg(i, &mut name) {
        Ok(n) => Some(replay_file(rt, &name[..n])),
        Err(FillError::TooLong) => {
            let unnamed = Named {
                to: rt,
                name: b"a name",
            };
            Some(unnamed.fail(" is too long"))
        }
        Err(FillError::NotPresent) => None,
    }
}

fn main(rt: HostRuntime) {
    let total = (1..usize::MAX)
        .map_while(|i| replay_argument(&rt, i))
        .fold(Sum::default(), Sum::plus);
    let _ = rt.println(total);
}

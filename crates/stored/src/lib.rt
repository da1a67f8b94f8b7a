// Files of stored answers, as docs/STORED_ANSWERS.md has them: their start, and their records with all
// parts by value. Every byte string can be read; bytes past the end count as 0.
#![tactic(auto)]

ghost use Rattle.std.specs.Prelude.{◌≡◌, ◌+◌, ◌≤◌, length};
ghost use Rattle.numbers.specs.Bytes.{le32};
ghost use Rattle.stored.specs.Files.{is_stored, count_at, answer_length, said, results_at, answer_at, record_at};

use numbers::{LittleEndian, at32};
use oce_diag::Counted;
use oce_model::Refusal;

// 4F 43 45 41, the low byte first.
const MAGIC: usize = 0x4145_434F;

const VERSION: usize = 1;

// Where version and number of records stand; the first record begins behind them.
const VERSION_AT: usize = 4;

const COUNT_AT: usize = 8;

pub const FIRST_RECORD: usize = 12;

// A record is the length of the rest, which counts all behind itself, the length of the image, the image, and the
// answer: where the image's length and the image stand.
const LENGTH_AT: usize = 4;

const IMAGE_AT: usize = 8;

// Where the parts of an answer stand, and its bytes before its diagnostics.
const TOLD_AT: usize = 1;

const OFFSET_AT: usize = 4;

const ERRORS_AT: usize = 8;

const WARNINGS_AT: usize = 12;

const FILLED_AT: usize = 16;

const ANSWER: usize = 20;

// What the oracle tells of an accepted image: the counts of its report, and how many filled records there are.
#[derive(Clone, Copy)]
pub struct Results {
    pub counted: Counted,
    pub filled: usize,
    // Where the diagnostics begin; the filled records stand behind them.
    pub diagnostics: usize,
}

// An answer with all its numbers: a refusal's number and offset, whether results are told, and the results. A
// file has each of them, whatever the others say.
#[derive(Clone, Copy)]
pub struct Answer {
    pub refusal: Refusal,
    pub told: bool,
    pub results: Results,
}

impl Answer {
    // What the oracle says of an image: it is accepted, with the results if they are told; or the refusal.
    pub fn said(&self) -> Result<Option<Results>, Refusal>
        ensures { result ≡ said self.now }
    {
        if self.refusal.number != 0 {
            return Err(self.refusal);
        }
        Ok(self.told.then_some(self.results))
    }
}

// An image with what the oracle says of it.
#[derive(Clone, Copy)]
pub struct Record {
    // Where the image begins, and its length.
    pub image: usize,
    pub len: usize,
    pub answer: Answer,
    // Where the next record begins.
    pub end: usize,
}

// Whether a file begins with magic and version.
#[tactic(auto, unfolding(crate::specs::Files::is_stored))]
pub fn is_stored(s: &[u8]) -> bool
    ensures { result ≡ is_stored s.now }
{
    at32(s, 0) == MAGIC && at32(s, VERSION_AT) == VERSION
}

// How many records a file says it has.
pub fn record_count(s: &[u8]) -> usize
    ensures { result ≡ le32 s.now count_at }
{
    at32(s, COUNT_AT)
}

// The results in the answer at an offset.
#[tactic(auto, unfolding(crate::specs::Files::results_at))]
fn results_at(s: &[u8], at: usize) -> Results
    requires { at + answer_length ≤ length s.now }
    ensures { result ≡ results_at s.now at }
{
    Results {
        counted: Counted {
            errors: u32::read_padded(s, at + ERRORS_AT),
            warnings: u32::read_padded(s, at + WARNINGS_AT),
        },
        filled: at32(s, at + FILLED_AT),
        diagnostics: at + ANSWER,
    }
}

// The answer at an offset.
#[tactic(auto, unfolding(crate::specs::Files::answer_at))]
fn answer_at(s: &[u8], at: usize) -> Answer
    requires { at + answer_length ≤ length s.now }
    ensures { result ≡ answer_at s.now at }
{
    Answer {
        refusal: Refusal {
            number: u32::from(u8::read_padded(s, at)),
            offset: u32::read_padded(s, at + OFFSET_AT),
        },
        told: u8::read_padded(s, at + TOLD_AT) != 0,
        results: results_at(s, at),
    }
}

// The record that begins at an offset, if it fits in the file, and image and answer in it.
pub fn record_at(s: &[u8], at: usize) -> Option<Record>
    ensures { result ≡ record_at s.now at }
{
    let left = s.len().checked_sub(at)?.checked_sub(LENGTH_AT)?;
    let rest = at32(s, at);
    let len = at32(s, at + LENGTH_AT);
    if left < rest {
        return None;
    }
    if LENGTH_AT + rest < IMAGE_AT + len + ANSWER {
        return None;
    }
    let image = at + IMAGE_AT;
    Some(Record {
        image,
        len,
        answer: answer_at(s, image + len),
        end: at + LENGTH_AT + rest,
    })
}

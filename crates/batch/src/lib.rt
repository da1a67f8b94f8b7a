// A batch of images (FORMAT 22): what its definitions and the code of `check_batch` share.
#![tactic(auto)]

ghost use Rattle.std.specs.Prelude.{◌≡◌, ◌+◌, ◌<◌};
ghost use Rattle.numbers.specs.Bytes.{word_range};
ghost use Rattle.batch.specs.Output.{count_of, size_of};

use numbers::LittleEndian;
use oce_diag::{Counted, DIAGNOSTIC_SIZE};
use oce_model::{LEADING_BYTES, Refusal};
use outcome::Answer;

// Why a batch is refused: the refusal's number by FORMAT 22, and the offset of the field at fault (11) or the
// bytes needed (12).
#[derive(Clone, Copy, PartialEq, Eq, Debug)]
pub struct BatchRefusal {
    pub number: u32,
    pub offset: usize,
}

// What a call answers: how many bytes were written; or the refusal.
pub type BatchAnswer = Result<usize, BatchRefusal>;

// ---- the numbers of the format that code cites, by the names of specs/

pub const IMAGE_TAG: usize = 0x30;

pub const MOST_IMAGES: usize = 4096;

pub const SUMMARY_TAG: u8 = 0x31;

pub const SUMMARY_LENGTH: usize = 13;

pub const SUMMARY_SIZE: usize = LEADING_BYTES + SUMMARY_LENGTH;

// where the numbers stand in the field of a summary

pub const REFUSAL_PLACE: usize = LEADING_BYTES;

pub const OFFSET_PLACE: usize = REFUSAL_PLACE + 1;

pub const ERRORS_PLACE: usize = OFFSET_PLACE + u32::SIZE;

pub const WARNINGS_PLACE: usize = ERRORS_PLACE + u32::SIZE;

// Where there is no refusal.
pub const NO_REFUSAL: Refusal = Refusal {
    number: 0,
    offset: 0,
};

// How many diagnostics the answer for an image counts.
pub fn count_of(answer: Answer) -> usize
    ensures { (result ≡ count_of answer) × (result < word_range + word_range) }
{
    answer.map_or(0, Counted::total)
}

// The bytes of the field and the report of an image, by its answer.
pub fn size_of(answer: Answer) -> usize
    ensures { result ≡ size_of answer }
{
    SUMMARY_SIZE + DIAGNOSTIC_SIZE * count_of(answer)
}

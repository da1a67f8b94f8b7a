// The checking calls with answers in numbers, as programs in C or Rust take them. oce_capi_c exports them;
// include/oce.h is their header.
#![tactic(auto)]

ghost use Rattle.std.specs.Prelude.{◌≡◌, length};
ghost use Rattle.outcome.specs.Answer.{answer, filled_after, report_after};
ghost use Rattle.moved.specs.Moved.{Moved};
ghost use Rattle.batch.specs.Answer.{batch_answer, output_after};
ghost use Rattle.oce_capi.specs.Numbers.{numbers, three_numbers};

use batch::BatchAnswer;
use batch_check::check_batch;
use oce_validate::check;
use outcome::Answer;

// An answer as four numbers.
#[repr(C)]
#[derive(Clone, Copy)]
pub struct OceAnswer {
    // the refusal's number; 0 where the image is checked
    pub refusal: u32,
    // the refusal's offset, or the bytes needed for 9 and 10; 0 where the image is checked
    pub at: u32,
    // the number of errors, and of warnings; both 0 for a refusal
    pub errors: u32,
    pub warnings: u32,
}

// The numbers of an answer.
fn in_numbers(a: Answer) -> OceAnswer
    ensures { result ≡ numbers a }
{
    match a {
        Ok(counted) => OceAnswer {
            refusal: 0,
            at: 0,
            errors: counted.errors,
            warnings: counted.warnings,
        },
        Err(refusal) => OceAnswer {
            refusal: refusal.number,
            at: refusal.offset,
            errors: 0,
            warnings: 0,
        },
    }
}

// Checks a model image: its report into one buffer, its filled image into the other. Where it is refused, or a buffer
// is too short, both buffers stay as they are. `answer` is the answer in numbers, `moved` what moves along connections
// by that answer.
pub fn oce_check(image: &[u8], filled: &mut [u8], report: &mut [u8]) -> OceAnswer
    ensures answer { result ≡ numbers (answer image.now (length filled.old) (length report.old)) }
    ensures filled { filled.new ≡ filled_after image.now filled.old report.old }
    ensures report { report.new ≡ report_after image.now filled.old report.old }
    ensures moved { Moved image.now (answer image.now (length filled.old) (length report.old)) filled.new report.new }
{
    in_numbers(check(image, filled, report))
}

// ---- a batch

// A batch's answer as three numbers.
#[repr(C)]
#[derive(Clone, Copy)]
pub struct OceBatchAnswer {
    // the refusal's number; 0 where the output is written
    pub refusal: u64,
    // the offset of the field at fault for 11, the bytes needed for 12; 0 where the output is written
    pub at: u64,
    // the bytes of the output; 0 for a refusal
    pub written: u64,
}

// The numbers of a batch's answer.
fn in_three_numbers(a: BatchAnswer) -> OceBatchAnswer
    ensures { result ≡ three_numbers a }
{
    match a {
        Ok(written) => OceBatchAnswer {
            refusal: 0,
            at: 0,
            written: written as u64,
        },
        Err(refusal) => OceBatchAnswer {
            refusal: u64::from(refusal.number),
            at: refusal.offset as u64,
            written: 0,
        },
    }
}

// Checks a batch of model images: for each a field that sums up its check, and its report, into the output. Where the
// batch is refused, or the output is too short, the output stays as it is. `answer` is the answer in numbers.
pub fn oce_check_batch(batch: &[u8], output: &mut [u8]) -> OceBatchAnswer
    ensures answer { result ≡ three_numbers (batch_answer batch.now (length output.old)) }
    ensures output { output.new ≡ output_after batch.now output.old }
{
    in_three_numbers(check_batch(batch, output))
}

// The static library for programs in C or Rust: what it exports are the calls of oce_capi, with their contracts.
// include/oce.h is its header.
#![tactic(auto)]

ghost use Rattle.std.specs.Prelude.{◌≡◌, length};
ghost use Rattle.outcome.specs.Answer.{answer, filled_after, report_after};
ghost use Rattle.moved.specs.Moved.{Moved};
ghost use Rattle.batch.specs.Answer.{batch_answer, output_after};
ghost use Rattle.oce_capi.specs.Numbers.{numbers, three_numbers};

use oce_capi::{OceAnswer, OceBatchAnswer};

// Checks a model image.
#[unsafe(no_mangle)]
pub extern "C" fn oce_check(image: &[u8], filled: &mut [u8], report: &mut [u8]) -> OceAnswer
    ensures answer { result ≡ numbers (answer image.now (length filled.old) (length report.old)) }
    ensures filled { filled.new ≡ filled_after image.now filled.old report.old }
    ensures report { report.new ≡ report_after image.now filled.old report.old }
    ensures moved { Moved image.now (answer image.now (length filled.old) (length report.old)) filled.new report.new }
{
    oce_capi::oce_check(image, filled, report)
}

// Checks a batch of model images.
#[unsafe(no_mangle)]
pub extern "C" fn oce_check_batch(batch: &[u8], output: &mut [u8]) -> OceBatchAnswer
    ensures answer { result ≡ three_numbers (batch_answer batch.now (length output.old)) }
    ensures output { output.new ≡ output_after batch.now output.old }
{
    oce_capi::oce_check_batch(batch, output)
}

// The checking call for a batch of images.
#![tactic(auto)]

ghost use Rattle.std.specs.Prelude.{◌≡◌, ◌+◌, ◌<◌, ◌≤◌, length, set};
ghost use Rattle.base.specs.Buffers.{patch, starts_with};
ghost use Rattle.batch.specs.Fields.{most_images, image_in};
ghost use Rattle.batch.specs.Output.{summary_of, image_output, batch_output, bytes_needed};
ghost use Rattle.batch.specs.Answer.{batch_answer, batch_numbers, output_after};
ghost use Rattle.batch_framing.specs.Clean.{Clean};
ghost use Rattle.batch_check.specs.Kept.{Measures, Kept};
ghost use Rattle.batch_check.specs.Called.{Measured, Called};

use base::copy_at;
use batch::{BatchAnswer, BatchRefusal, MOST_IMAGES, SUMMARY_SIZE, size_of};
use batch_framing::{find_fault, image_in};
use batch_image::{summarize_at, write_image};
use image_framing::Fields;
use oce_diag::Counted;
use oce_model::Field;
use outcome::Answer;

// The refusals of a batch: a field at fault, and an output buffer that is too short.
const FIELD_AT_FAULT: u32 = 11;

const OUTPUT_TOO_SHORT: u32 = 12;

// Room for an output that is written before it is known whether the caller's buffer has room for it: a field for each
// of the most images.
const EARLY: usize = SUMMARY_SIZE * MOST_IMAGES;

// ---- what the output needs

// Keeps the answer for the image in a field; the bytes that it needs. Its part of the output stands in early from index
// o on, if it fits there.
fn measure_image(batch: &[u8], f: Field, kept: &mut [Answer], early: &mut [u8], o: usize) -> usize
    requires { (f.at ≤ length batch.now) × (f.ord < length kept.old) }
    ensures kept { kept.new ≡ set kept.old f.ord (summary_of (image_in batch.now f)) }
    ensures measures { Measures (image_in batch.now f) o early.old early.new result }
{
    let answer = summarize_at(image_in(batch, f), early, o);
    kept[f.ord] = answer;
    size_of(answer)
}

// Keeps the answers for all images; the bytes of the whole output, which early begins with, if it fits there.
fn measure(batch: &[u8], kept: &mut [Answer], early: &mut [u8]) -> usize
    requires { Clean batch.now × (length kept.old ≡ most_images) }
    ensures { Measured batch.now kept.new early.new result }
{
    let mut needed = 0;
    for f in Fields::of(batch) {
        needed += measure_image(batch, f, kept, early, needed);
    }
    needed
}

// ---- the output

// Writes the part of the image in a field, by its answer, from index o on; where it ends.
fn write_part(batch: &[u8], f: Field, answer: Answer, output: &mut [u8], o: usize) -> usize
    requires { (f.at ≤ length batch.now) × (answer ≡ summary_of (image_in batch.now f)) × (o + length (image_output (image_in batch.now f)) ≤ length output.old) }
    ensures end { result ≡ o + length (image_output (image_in batch.now f)) }
    ensures output { output.new ≡ patch output.old o (image_output (image_in batch.now f)) }
{
    write_image(image_in(batch, f), answer, &mut output[o..]);
    o + size_of(answer)
}

// Writes the whole output.
fn write_parts(batch: &[u8], kept: &[Answer], output: &mut [u8])
    requires { Clean batch.now × Kept batch.now kept.now × (bytes_needed batch.now ≤ length output.old) }
    ensures { output.new ≡ starts_with (batch_output batch.now) output.old }
{
    let mut o = 0;
    for f in Fields::of(batch) {
        o = write_part(batch, f, kept[f.ord], output, o);
    }
}

// ---- the call

// Writes the whole output: a copy, if early has it.
fn write_output(batch: &[u8], kept: &[Answer], early: &[u8], needed: usize, output: &mut [u8])
    requires { Clean batch.now × Measured batch.now kept.now early.now needed × (needed ≤ length output.old) }
    ensures { output.new ≡ starts_with (batch_output batch.now) output.old }
{
    if needed <= early.len() {
        copy_at(output, 0, &early[0..needed]);
        return;
    }
    write_parts(batch, kept, output);
}

// A batch without a field at fault: refusal 12, or its output.
fn check_images(batch: &[u8], output: &mut [u8]) -> BatchAnswer
    requires { Clean batch.now }
    ensures { Called batch.now output.old result output.new }
{
    let mut kept = [Ok(Counted::default()); MOST_IMAGES];
    let mut early = [0u8; EARLY];
    let needed = measure(batch, &mut kept, &mut early);
    if output.len() < needed {
        return Err(BatchRefusal {
            number: OUTPUT_TOO_SHORT,
            offset: needed,
        });
    }
    write_output(batch, &kept, &early, needed, output);
    Ok(needed)
}

// Every byte string: refusal 11, or on to its images.
fn check_any(batch: &[u8], output: &mut [u8]) -> BatchAnswer
    ensures { Called batch.now output.old result output.new }
{
    match find_fault(batch) {
        Some(offset) => Err(BatchRefusal {
            number: FIELD_AT_FAULT,
            offset,
        }),
        None => check_images(batch, output),
    }
}

// Checks a batch of model images: for each image its field and its report go into the output, one behind
// the other, bytes behind stay. Where the batch is refused, or the output is too short, the output stays
// as it is. `answer` is the answer of FORMAT 22, `numbers` its numbers, `output` the buffer, every byte.
pub fn check_batch(batch: &[u8], output: &mut [u8]) -> BatchAnswer
    ensures answer { result ≡ batch_answer batch.now (length output.old) }
    ensures numbers { batch_numbers result ≡ batch_numbers (batch_answer batch.now (length output.old)) }
    ensures output { output.new ≡ output_after batch.now output.old }
{
    check_any(batch, output)
}

// One image of a batch: what its check gives, and its part of the output.
#![tactic(auto)]

ghost use Rattle.std.specs.Prelude.{◌≡◌, ◌+◌, ◌≤◌, length, Ok};
ghost use Rattle.base.specs.Buffers.{patch, starts_with};
ghost use Rattle.oce_model.specs.Model.{model_of};
ghost use Rattle.unify_slots.specs.Slots.{slot_count};
ghost use Rattle.batch.specs.Output.{summary_size, summary_of, summary_field, summary_bytes, image_output};
ghost use Rattle.batch_image.specs.Summarized.{Summed, Summarized, Placed};

use base::copy_at;
use batch::{NO_REFUSAL, SUMMARY_LENGTH, SUMMARY_SIZE, SUMMARY_TAG, count_of};
use image_records::{Image, Tables};
use numbers::BYTE_RANGE_U32;
use oce_diag::Counted;
use oce_model::Refusal;
use oce_validate::{FEW_SLOTS, MOST_SLOTS};
use outcome::Answer;
use rules::run;
use unify_clusters::Slots;
use unify_slots::{NO_ATTRS, slot_count};

// ---- the check

// Runs all rules over a report, with a table for so many slots.
fn run_in<const SLOTS: usize>(image: &Image, report: &mut [u8]) -> Counted
    requires { (slot_count (model_of image.now) ≤ SLOTS) × (SLOTS ≤ MOST_SLOTS) }
    ensures { Summed image.now report.old report.new (Ok result) }
{
    // that the image was accepted, so its answer is no refusal
    let _ = image.bytes();
    let mut table = [NO_ATTRS; SLOTS];
    run(&mut Slots::of(image, &mut table), report)
}

// An accepted image.
fn run_accepted(image: &Image, report: &mut [u8]) -> Counted
    ensures { Summed image.now report.old report.new (Ok result) }
{
    if slot_count(image) <= FEW_SLOTS {
        run_in::<FEW_SLOTS>(image, report)
    } else {
        run_in::<MOST_SLOTS>(image, report)
    }
}

// Sums up the check of any byte string; the report holds its diagnostics, if it has room for them all.
fn summarize_into(image: &[u8], report: &mut [u8]) -> Answer
    ensures { Summed image.now report.old report.new result }
{
    let mut tables = Tables::EMPTY;
    let image = Image::accept(image, &mut tables)?;
    Ok(run_accepted(&image, report))
}

// Sums up the check of any byte string, and writes no report.
fn summarize(image: &[u8]) -> Answer
    ensures { Summarized image.now result }
{
    let mut nothing = [0u8; 0];
    summarize_into(image, &mut nothing)
}

// ---- the output

// The field of a refusal and of what is counted.
fn encode(refusal: Refusal, counted: Counted) -> [u8; SUMMARY_SIZE]
    ensures { result ≡ summary_field refusal counted }
{
    let [a0, a1, a2, a3] = refusal.offset.to_le_bytes();
    let [e0, e1, e2, e3] = counted.errors.to_le_bytes();
    let [w0, w1, w2, w3] = counted.warnings.to_le_bytes();
    [
        SUMMARY_TAG,
        SUMMARY_LENGTH as u8,
        0,
        (refusal.number % BYTE_RANGE_U32) as u8,
        a0,
        a1,
        a2,
        a3,
        e0,
        e1,
        e2,
        e3,
        w0,
        w1,
        w2,
        w3,
    ]
}

// The field of an answer.
fn encode_answer(answer: Answer) -> [u8; SUMMARY_SIZE]
    ensures { result ≡ summary_bytes answer }
{
    match answer {
        Ok(counted) => encode(NO_REFUSAL, counted),
        Err(refusal) => encode(refusal, Counted::default()),
    }
}

// Writes the field of an answer from index o on.
fn put_field(output: &mut [u8], o: usize, answer: Answer)
    requires { o + summary_size ≤ length output.old }
    ensures { output.new ≡ patch output.old o (summary_bytes answer) }
{
    copy_at(output, o, &encode_answer(answer));
}

// An image's part of the output: its field, and its report, for which the rules run once more, where there is one.
pub fn write_image(image: &[u8], answer: Answer, output: &mut [u8])
    requires { (answer ≡ summary_of image.now) × (length (image_output image.now) ≤ length output.old) }
    ensures { output.new ≡ starts_with (image_output image.now) output.old }
{
    put_field(output, 0, answer);
    if count_of(answer) == 0 {
        return;
    }
    let behind = SUMMARY_SIZE;
    let _ = summarize_into(image, &mut output[behind..]);
}

// Sums up the check of any byte string; its part of the output then stands in early from index o on, if it fits there.
pub fn summarize_at(image: &[u8], early: &mut [u8], o: usize) -> Answer
    ensures { Placed image.now o early.old early.new result }
{
    let room = early.len().checked_sub(SUMMARY_SIZE);
    if room.is_none_or(|room| room < o) {
        return summarize(image);
    }
    let behind = o + SUMMARY_SIZE;
    let answer = summarize_into(image, &mut early[behind..]);
    put_field(early, o, answer);
    answer
}

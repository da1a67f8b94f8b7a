// The checking call.
#![tactic(auto)]

ghost use Rattle.std.specs.Prelude.{◌≡◌, ◌*◌, ◌≤◌, length};
ghost use Rattle.base.specs.Buffers.{starts_with};
ghost use Rattle.oce_model.specs.Model.{model_of};
ghost use Rattle.oce_diag.specs.Encoding.{diagnostic_size, report_bytes};
ghost use Rattle.oce_diag.specs.Putting.{total};
ghost use Rattle.unify_slots.specs.Slots.{slot_count};
ghost use Rattle.outcome.specs.Filled.{filled_of};
ghost use Rattle.outcome.specs.Answer.{report_of, numbers_of, answer, filled_after, report_after};
ghost use Rattle.moved.specs.Moved.{Moved};
ghost use Rattle.oce_validate.specs.Answered.{Answered, Tallied, Early};

use base::copy_at;
use filling::{copy_image, fill_image};
use image_records::{Image, Tables};
use oce_diag::{Counted, DIAGNOSTIC_SIZE};
use oce_model::{MOST_BOUNDARY_OUTPUTS, MOST_CONNECTORS, Refusal};
use outcome::Answer;
use rules::run;
use unify_clusters::Slots;
use unify_slots::{NO_ATTRS, slot_count};

// No image has more slots: one for each connector and each boundary output.
pub const MOST_SLOTS: usize = MOST_CONNECTORS + MOST_BOUNDARY_OUTPUTS;

// So many have a shorter table, which is sooner cleared.
pub const FEW_SLOTS: usize = 192;

// The refusals of buffers that are too short. FORMAT 6
const SHORT_FILLED: u32 = 9;

const SHORT_REPORT: u32 = 10;

// So many diagnostics are written before it is known whether the report has room for them.
const EARLY_DIAGNOSTICS: usize = 64;

const EARLY: usize = DIAGNOSTIC_SIZE * EARLY_DIAGNOSTICS;

// Counts the diagnostics of an image; the slots are then filled.
fn tally(slots: &mut Slots, early: &mut [u8]) -> Counted
    ensures { Tallied slots.old.image slots.new result × Early slots.old.image early.new }
{
    run(slots, early)
}

// The filled image: the attributes of the slots where there is no error, otherwise the image's own.
fn leave_filled(slots: &Slots, counted: Counted, filled: &mut [u8])
    requires { Tallied slots.now.image slots.now counted × (length slots.now.image ≤ length filled.old) }
    ensures { filled.new ≡ starts_with (filled_of slots.now.image) filled.old }
{
    if 0 < counted.errors {
        copy_image(slots.image().bytes(), filled);
    } else {
        fill_image(slots, filled);
    }
}

// The bytes of the report in which so many are counted.
fn size_of(counted: Counted) -> usize
    ensures { result ≡ diagnostic_size * total counted }
{
    DIAGNOSTIC_SIZE * counted.total()
}

// The report: what was written early, or all rules once more.
fn leave_report(slots: &mut Slots, counted: Counted, early: &[u8], report: &mut [u8])
    requires { Tallied slots.old.image slots.old counted × Early slots.old.image early.now × (diagnostic_size * total counted ≤ length report.old) }
    ensures { report.new ≡ starts_with (report_bytes (report_of slots.old.image)) report.old }
{
    let size = size_of(counted);
    if size <= early.len() {
        copy_at(report, 0, &early[..size]);
    } else {
        run(slots, report);
    }
}

// An accepted image for which the filled buffer has room, over its slots: refusal 10, or both buffers.
fn check_over(slots: &mut Slots, filled: &mut [u8], report: &mut [u8]) -> Answer
    requires { length slots.old.image ≤ length filled.old }
    ensures { Answered slots.old.image filled.old report.old result filled.new report.new }
{
    // that the image was accepted, so nothing but refusal 10 can turn it away
    let _ = slots.image().bytes();
    let mut early = [0u8; EARLY];
    let counted = tally(slots, &mut early);
    let size = size_of(counted);
    if report.len() < size {
        return Err(Refusal {
            number: SHORT_REPORT,
            offset: size as u32,
        });
    }
    leave_filled(slots, counted, filled);
    leave_report(slots, counted, &early, report);
    Ok(counted)
}

// The same with a table for so many slots.
fn check_in<const SLOTS: usize>(image: &Image, filled: &mut [u8], report: &mut [u8]) -> Answer
    requires { (slot_count (model_of image.now) ≤ SLOTS) × (SLOTS ≤ MOST_SLOTS) × (length image.now ≤ length filled.old) }
    ensures { Answered image.now filled.old report.old result filled.new report.new }
{
    let mut table = [NO_ATTRS; SLOTS];
    check_over(&mut Slots::of(image, &mut table), filled, report)
}

// An accepted image: refusal 9, or on to its rules.
fn check_accepted(image: &Image, filled: &mut [u8], report: &mut [u8]) -> Answer
    ensures { Answered image.now filled.old report.old result filled.new report.new }
{
    let size = image.bytes().len();
    if filled.len() < size {
        return Err(Refusal {
            number: SHORT_FILLED,
            offset: size as u32,
        });
    }
    if slot_count(image) <= FEW_SLOTS {
        check_in::<FEW_SLOTS>(image, filled, report)
    } else {
        check_in::<MOST_SLOTS>(image, filled, report)
    }
}

// Every byte string, accepted or refused.
fn check_any(image: &[u8], filled: &mut [u8], report: &mut [u8]) -> Answer
    ensures { Answered image.now filled.old report.old result filled.new report.new }
{
    let mut tables = Tables::EMPTY;
    let image = Image::accept(image, &mut tables)?;
    check_accepted(&image, filled, report)
}

// Checks a model image: the report of its diagnostics goes into one buffer, the image with its
// attributes filled into the other, bytes behind both stay. Where the image is refused, or a buffer is
// too short, both buffers stay as they are. `answer` is the answer of FORMAT 1, `numbers` its numbers, `moved`
// a theorem about values that move along connections.
pub fn check(image: &[u8], filled: &mut [u8], report: &mut [u8]) -> Answer
    ensures answer { result ≡ answer image.now (length filled.old) (length report.old) }
    ensures numbers { numbers_of result ≡ numbers_of (answer image.now (length filled.old) (length report.old)) }
    ensures filled { filled.new ≡ filled_after image.now filled.old report.old }
    ensures report { report.new ≡ report_after image.now filled.old report.old }
    ensures moved { Moved image.now result filled.new report.new }
{
    check_any(image, filled, report)
}

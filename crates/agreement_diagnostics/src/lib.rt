// Stored diagnostics beside those of a report, as docs/STORED_ANSWERS.md has them.
#![tactic(auto)]

ghost use Rattle.std.specs.Prelude.{◌≡◌, ◌≤◌, length};
ghost use Rattle.outcome.specs.Answer.{report_of};
ghost use Rattle.agreement_diagnostics.specs.Diagnostics.{same_fields, same_numbers, same_subject, agrees, compared, Reported};

use base::part_of;
use image_texts::same_bytes;
use numbers::{LittleEndian, at16, byte_at, is_set};
use oce_diag::{
    CODE_PLACE, DETAIL_PLACE, DIAGNOSTIC_LENGTH, Diagnostic, PLACE_PLACE, RULE_PLACE,
    SEVERITY_PLACE, SUBJECT_KIND_PLACE, SUBJECT_NUMBER_PLACE, Subject, code_number, diagnostic_at,
    severity_number, subject_kind, subject_number,
};
use subject::{LEAST_SCRATCH, subject, write_subject};

// Where the parts of a stored diagnostic stand, from the severity on: as in a report, with what is told
// and the length of the subject's text for the zero bytes; then the text.
const CODE_AT: usize = CODE_PLACE - SEVERITY_PLACE;

const RULE_AT: usize = RULE_PLACE - SEVERITY_PLACE;

const DETAIL_AT: usize = DETAIL_PLACE - SEVERITY_PLACE;

const KIND_AT: usize = SUBJECT_KIND_PLACE - SEVERITY_PLACE;

const TOLD_AT: usize = KIND_AT + 1;

const TEXT_LENGTH_AT: usize = TOLD_AT + 1;

const NUMBER_AT: usize = SUBJECT_NUMBER_PLACE - SEVERITY_PLACE;

const PLACE_AT: usize = PLACE_PLACE - SEVERITY_PLACE;

const TEXT_AT: usize = DIAGNOSTIC_LENGTH;

// The bits of what is told.
const NUMBER_BIT: usize = 0;

const PLACE_BIT: usize = 1;

// ---- one diagnostic: the stored one at an offset beside one of the report

// Severity, code, rule, detail and subject kind.
#[tactic(auto, unfolding(crate::specs::Diagnostics::same_fields))]
fn fields_agree(file: &[u8], at: usize, d: Diagnostic) -> bool
    requires { at ≤ length file.now }
    ensures { result ≡ same_fields file.now at d }
{
    u8::read_padded(file, at) == severity_number(d.severity)
        && u8::read_padded(file, at + CODE_AT) == code_number(d.code)
        && u8::read_padded(file, at + RULE_AT) == d.rule
        && u8::read_padded(file, at + DETAIL_AT) == d.detail
        && u8::read_padded(file, at + KIND_AT) == subject_kind(d.subject)
}

// The subject's number and the place, where they are told.
#[tactic(auto, unfolding(crate::specs::Diagnostics::same_numbers))]
fn numbers_agree(file: &[u8], at: usize, d: Diagnostic) -> bool
    requires { at ≤ length file.now }
    ensures { result ≡ same_numbers file.now at d }
{
    let told = byte_at(file, at + TOLD_AT);
    (!is_set(told, NUMBER_BIT)
        || u32::read_padded(file, at + NUMBER_AT) == subject_number(d.subject))
        && (!is_set(told, PLACE_BIT) || u32::read_padded(file, at + PLACE_AT) == d.place)
}

// The subject's text.
fn subject_agrees(file: &[u8], at: usize, image: &[u8], x: Subject) -> bool
    requires { at ≤ length file.now }
    ensures { result ≡ same_subject file.now at image.now x }
{
    let kind = subject_kind(x);
    let number = subject_number(x);
    let mut scratch = [0u8; LEAST_SCRATCH];
    write_subject(image, kind, number, &mut scratch);
    let ours = subject(image, &scratch, kind, number);
    let len = at16(file, at + TEXT_LENGTH_AT);
    same_bytes(ours, part_of(file, at + TEXT_AT, len))
}

// All that is told of it.
#[tactic(auto, unfolding(crate::specs::Diagnostics::agrees))]
fn diagnostic_agrees(file: &[u8], at: usize, image: &[u8], d: Diagnostic) -> bool
    requires { at ≤ length file.now }
    ensures { result ≡ agrees file.now at image.now d }
{
    fields_agree(file, at, d)
        && numbers_agree(file, at, d)
        && subject_agrees(file, at, image, d.subject)
}

// ---- all of them

// All diagnostics, in their order, where count is how many the report has: where the stored ones end; or the first
// that differs.
pub fn compare_diagnostics(
    file: &[u8],
    at: usize,
    image: &[u8],
    report: &[u8],
    count: usize,
) -> Result<usize, usize>
    requires { Reported (report_of image.now) report.now × (count ≡ length (report_of image.now)) }
    ensures { result ≡ compared file.now at image.now (report_of image.now) }
{
    let mut at = at;
    for n in 0..count {
        if file.len() < at {
            return Err(n);
        }
        if !diagnostic_agrees(file, at, image, diagnostic_at(report, n)) {
            return Err(n);
        }
        at += TEXT_AT + at16(file, at + TEXT_LENGTH_AT);
    }
    Ok(at)
}

// Whether what a check of a stored image gives agrees with the oracle's answer, as
// docs/STORED_ANSWERS.md has them.
#![tactic(auto)]

ghost use Rattle.std.specs.Prelude.{◌≡◌};
ghost use Rattle.stored.specs.Files.{said};
ghost use Rattle.agreement.specs.Agreement.{refusal_agreement, results_agreement, agreement, Leaves};

use agreement_diagnostics::compare_diagnostics;
use agreement_filled::filled_agrees;
use base::part_of;
use oce_diag::Counted;
use oce_model::{LONGEST_IMAGE, Refusal};
use oce_validate::check;
use stored::{Answer, Record, Results};

// The most bytes that the report of a stored image has.
const LONGEST_REPORT: usize = 131072;

// What differs first.
#[derive(Clone, Copy)]
pub enum Difference {
    // The refusal here, if the image is refused here.
    Refusal(Option<Refusal>),
    Counts,
    // The first diagnostic that differs.
    Diagnostic(usize),
    Filled,
}

// A refusal here beside the stored answer.
#[tactic(auto, unfolding(crate::specs::Agreement::same_refusal))]
fn compare_refusal(stored: Answer, here: Refusal) -> Result<(), Difference>
    ensures { result ≡ refusal_agreement (said stored) here }
{
    match stored.said() {
        Err(refusal) if refusal == here => Ok(()),
        _ => Err(Difference::Refusal(Some(here))),
    }
}

// Counts, report and filled image beside the stored results, whose record ends at an offset of the file.
fn compare_results(
    file: &[u8],
    end: usize,
    stored: Results,
    image: &[u8],
    here: Counted,
    filled: &[u8],
    report: &[u8],
) -> Result<(), Difference>
    requires { Leaves image.now here filled.now report.now }
    ensures { result ≡ results_agreement file.now end stored image.now }
{
    if stored.counted != here {
        return Err(Difference::Counts);
    }
    let found = compare_diagnostics(file, stored.diagnostics, image, report, here.total());
    let at = found.map_err(Difference::Diagnostic)?;
    if !filled_agrees(file, at, stored.filled, end, image, filled) {
        return Err(Difference::Filled);
    }
    Ok(())
}

// Checks the image of a stored record, and compares what that gives with the record.
pub fn compare(file: &[u8], stored: Record) -> Result<(), Difference>
    ensures { result ≡ agreement file.now stored }
{
    let mut filled = [0u8; LONGEST_IMAGE];
    let mut report = [0u8; LONGEST_REPORT];
    let image = part_of(file, stored.image, stored.len);
    match check(image, &mut filled, &mut report) {
        Err(refusal) => compare_refusal(stored.answer, refusal),
        Ok(counted) => match stored.answer.said() {
            Err(_) => Err(Difference::Refusal(None)),
            Ok(None) => Ok(()),
            Ok(Some(results)) => {
                compare_results(file, stored.end, results, image, counted, &filled, &report)
            }
        },
    }
}

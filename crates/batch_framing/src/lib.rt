// The fields of a batch, one after the other: the first at fault, and the image in a field.
#![tactic(auto)]

ghost use Rattle.std.specs.Prelude.{◌≡◌, ◌≤◌, length};
ghost use Rattle.batch.specs.Fields.{bad_field, first_fault, image_in};

use base::part_of;
use batch::{IMAGE_TAG, MOST_IMAGES};
use image_framing::{Fields, end_of};
use oce_model::{Field, LEADING_BYTES};

// Another tag than an image's, or as many images before it as there may be.
#[tactic(auto, unfolding(batch::specs::Fields::bad_field))]
fn bad_field(f: Field) -> bool
    ensures { result ≡ bad_field f }
{
    f.tag != IMAGE_TAG || MOST_IMAGES <= f.ord
}

// Goes through the fields once, for refusal 11: the offset of the first field that is cut short or bad, if there is
// one.
pub fn find_fault(batch: &[u8]) -> Option<usize>
    ensures { result ≡ first_fault batch.now }
{
    let mut end = 0;
    for f in Fields::of(batch) {
        if bad_field(f) {
            return Some(f.at);
        }
        end = end_of(f);
    }
    (end < batch.len()).then_some(end)
}

// The image in a field.
#[tactic(auto, unfolding(oce_model::specs::Texts::text_of))]
pub fn image_in(batch: &[u8], f: Field) -> &[u8]
    requires { f.at ≤ length batch.now }
    ensures { result.now ≡ image_in batch.now f }
{
    part_of(batch, f.at + LEADING_BYTES, f.len)
}

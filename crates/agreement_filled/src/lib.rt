// Stored filled records, and the filled image beside the image with their attributes, as
// docs/STORED_ANSWERS.md has them.
#![tactic(auto)]

ghost use Rattle.std.specs.Prelude.{◌≡◌, ◌&&◌, ◌+◌, ◌*◌, ◌≤◌, eqb, length, take};
ghost use Rattle.std.specs.Prelude.{None};
ghost use Rattle.base.specs.Lists.{same};
ghost use Rattle.oce_model.specs.Model.{model_of};
ghost use Rattle.oce_model.specs.Refusals.{refusal};
ghost use Rattle.outcome.specs.Filled.{filled_of};
ghost use Rattle.agreement_filled.specs.Filled.{filled_size, some_slot, is_slot, put_record, put_records, slots_among, filled_agrees};

use base::{copy_at, part_of};
use filling::slot_offset;
use image_records::{Image, Tables};
use image_texts::same_bytes;
use numbers::{at32, byte_at};
use oce_model::{ATTRS_LENGTH, BOUNDARY_OUTPUT_TAG, CONNECTOR_TAG, LONGEST_IMAGE};

// A stored filled record: tag, three zero bytes, index, attributes.
const INDEX_AT: usize = 4;

const ATTRIBUTES_AT: usize = 8;

const FILLED_SIZE: usize = ATTRIBUTES_AT + ATTRS_LENGTH;

// ---- one filled record

// The slot of the record with a tag and an index, if the image has it.
#[tactic(auto, unfolding(crate::specs::Filled::slot_of))]
fn slot_of(image: &Image, tag: usize, i: usize) -> Option<usize>
    ensures { result ≡ some_slot (model_of image.now) tag i }
{
    let connectors = image.connector_count();
    match tag {
        CONNECTOR_TAG if i < connectors => Some(i),
        BOUNDARY_OUTPUT_TAG if i < image.boundary_output_count() => Some(connectors + i),
        _ => None,
    }
}

// Puts the attributes of the filled record at an offset into an image that is expected, if they are a slot's, and
// says whether they are.
#[tactic(auto, unfolding(crate::specs::Filled::slot_at, crate::specs::Filled::is_slot, crate::specs::Filled::put_record))]
fn put_record(file: &[u8], at: usize, image: &Image, expected: &mut [u8]) -> bool
    requires { (at ≤ length file.now) × (length image.now ≤ length expected.old) }
    ensures slot { result ≡ is_slot file.now at image.now }
    ensures expected { expected.new ≡ put_record file.now at image.now expected.old }
{
    // that the image was accepted, so its slots lie inside it
    let _ = image.bytes();
    let Some(j) = slot_of(image, byte_at(file, at), at32(file, at + INDEX_AT)) else {
        return false;
    };
    let attrs = part_of(file, at + ATTRIBUTES_AT, ATTRS_LENGTH);
    copy_at(expected, slot_offset(image, j), attrs);
    true
}

// Those of all records, from an offset on; gives how many are of slots.
fn put_records(file: &[u8], at: usize, count: usize, image: &Image, expected: &mut [u8]) -> usize
    requires { (at + filled_size * count ≤ length file.now) × (length image.now ≤ length expected.old) }
    ensures { (result ≡ slots_among file.now at image.now count) × (expected.new ≡ put_records file.now at image.now count expected.old) }
{
    let mut slots = 0;
    for k in 0..count {
        slots += usize::from(put_record(file, at + FILLED_SIZE * k, image, expected));
    }
    slots
}

// Whether so many filled records from an offset on reach up to an end.
fn records_reach(at: usize, count: usize, end: usize) -> bool
    ensures { result ≡ eqb (at + filled_size * count) end }
{
    let size = count.checked_mul(FILLED_SIZE);
    size.and_then(|n| n.checked_add(at)) == Some(end)
}

// The filled image beside the image with the attributes of the filled records, which lie in the file.
fn image_agrees(file: &[u8], at: usize, count: usize, image: &Image, filled: &[u8]) -> bool
    requires { (at + filled_size * count ≤ length file.now) × (take (length image.now) filled.now ≡ filled_of image.now) }
    ensures { result ≡ (eqb (slots_among file.now at image.now count) count && same (put_records file.now at image.now count image.now) (filled_of image.now)) }
{
    let bytes = image.bytes();
    let mut room = [0u8; LONGEST_IMAGE];
    let expected = &mut room[..bytes.len()];
    expected.copy_from_slice(bytes);
    let slots = put_records(file, at, count, image, expected);
    (slots == count) & same_bytes(expected, part_of(filled, 0, bytes.len()))
}

// The same for records that lie anywhere, with the end of the stored record.
pub fn filled_agrees(
    file: &[u8],
    at: usize,
    count: usize,
    end: usize,
    image: &[u8],
    filled: &[u8],
) -> bool
    requires { (refusal image.now ≡ None) × (take (length image.now) filled.now ≡ filled_of image.now) }
    ensures { result ≡ filled_agrees file.now at count end image.now }
{
    if file.len() < end {
        return false;
    }
    if !records_reach(at, count, end) {
        return false;
    }
    let mut tables = Tables::EMPTY;
    match Image::accept(image, &mut tables) {
        Err(_) => false,
        Ok(image) => image_agrees(file, at, count, &image, filled),
    }
}

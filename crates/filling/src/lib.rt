// The filled image (FORMAT 17): the attributes of slots, written over those of the image.
#![tactic(auto)]

ghost use Rattle.std.specs.Prelude.{◌≡◌, ℕ, ◌≤◌, ◌<◌, length, get_or, slice_index};
ghost use Rattle.base.specs.Buffers.{starts_with};
ghost use Rattle.numbers.specs.Bytes.{byte_range};
ghost use Rattle.oce_model.specs.Attributes.{attrs_bytes};
ghost use Rattle.oce_model.specs.Model.{model_of};
ghost use Rattle.unify_slots.specs.Slots.{slot_count};
ghost use Rattle.outcome.specs.Filled.{slot_offsets, with_slots};

use base::copy_at;
use image_records::Image;
use numbers::{LittleEndian, SHORT_RANGE_U64};
use oce_model::{
    ATTRS_DISPLAY_UNIT_AT, ATTRS_LENGTH, ATTRS_MAX_AT, ATTRS_MIN_AT, ATTRS_NOMINAL_AT,
    ATTRS_QUANTITY_AT, ATTRS_UNIT_AT, Attrs, BOUNDARY_OUTPUT_ATTRS, BOUNDARY_OUTPUT_SIZE,
    CONNECTOR_ATTRS, CONNECTOR_SIZE, DISPLAY_UNIT_BIT, MAX_BIT, MIN_BIT, NOMINAL_BIT, QUANTITY_BIT,
    UNIT_BIT,
};
use unify_clusters::Slots;

// The bytes of a slot: kind and marks, its text numbers by their low 16 bits, its numbers of 64 bits.
fn encode(slot: &Attrs) -> [u8; ATTRS_LENGTH]
    ensures { result ≡ attrs_bytes slot.now }
{
    let mut bytes = [0; ATTRS_LENGTH];
    copy_at(&mut bytes, 0, &[slot.kind, slot.marks]);
    let quantity = (slot.nums[QUANTITY_BIT] % SHORT_RANGE_U64) as u16;
    let unit = (slot.nums[UNIT_BIT] % SHORT_RANGE_U64) as u16;
    let display = (slot.nums[DISPLAY_UNIT_BIT] % SHORT_RANGE_U64) as u16;
    quantity.write(&mut bytes, ATTRS_QUANTITY_AT);
    unit.write(&mut bytes, ATTRS_UNIT_AT);
    display.write(&mut bytes, ATTRS_DISPLAY_UNIT_AT);
    slot.nums[MIN_BIT].write(&mut bytes, ATTRS_MIN_AT);
    slot.nums[MAX_BIT].write(&mut bytes, ATTRS_MAX_AT);
    slot.nums[NOMINAL_BIT].write(&mut bytes, ATTRS_NOMINAL_AT);
    bytes
}

// Where the attributes of slot j stand.
pub fn slot_offset(image: &Image, j: usize) -> usize
    requires { j < slot_count (model_of image.now) }
    ensures { result ≡ get_or (slot_offsets image.now) j 0 }
{
    let layout = image.layout();
    let connectors = layout.connectors;
    if j < connectors.count {
        connectors.record_at(CONNECTOR_SIZE, j) + CONNECTOR_ATTRS
    } else {
        let i = j - connectors.count;
        layout.outputs.record_at(BOUNDARY_OUTPUT_SIZE, i) + BOUNDARY_OUTPUT_ATTRS
    }
}

// The image alone: what a report with an error leaves. `bytes` says what the slice's type says of them.
pub fn copy_image(image: &[u8], filled: &mut [u8])
    requires { length image.now ≤ length filled.old }
    ensures filled { filled.new ≡ starts_with image.now filled.old }
    ensures bytes { (i : ℕ) → slice_index image.now i < byte_range }
{
    copy_at(filled, 0, image);
}

// An image with the attributes of its slots.
pub fn fill_image(slots: &Slots, filled: &mut [u8])
    requires { length slots.now.image ≤ length filled.old }
    ensures { filled.new ≡ starts_with (with_slots slots.now.image slots.now.attrs) filled.old }
{
    let image = slots.image();
    let attrs = slots.attrs();
    copy_image(image.bytes(), filled);
    for (j, slot) in attrs.iter().enumerate() {
        copy_at(filled, slot_offset(image, j), &encode(slot));
    }
}

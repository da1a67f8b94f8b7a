// Whether a field that lies inside the image is at fault under any of refusals 4 to 8: the tests of faults
// and contents, which are made there one refusal after the other, here in one go, over numbers that are
// read without a test of the image's end.
#![tactic(auto)]

ghost use Rattle.std.specs.Prelude.{◌≡◌, ◌≢◌, false, ◌||◌, ◌+◌, ◌≤◌, length};
ghost use Rattle.numbers.specs.Bytes.{le16};
ghost use Rattle.oce_model.specs.Format.{longest_image, attrs_length, connector_size, boundary_input_attrs, leading_bytes, block_tag};
ghost use Rattle.oce_model.specs.Attributes.{attrs_at};
ghost use Rattle.oce_model.specs.Model.{connector_at};
ghost use Rattle.oce_model.specs.Refusals.{bad_length, bad_contents, bad_text, bad_reference};
ghost use Rattle.image_sieve.specs.Faulty.{attrs_faulty, connector_faulty, boundary_faulty, at_fault};

use image_contents::{attrs_inside, bad_attrs, bad_head, bad_or_none, bad_text_numbers, bad_type};
use image_faults::{bad_length, bad_ports, has_bad_byte, too_many};
use numbers::{read8, read16, read32};
use oce_model::{
    BLOCK_INPUTS_AT, BLOCK_INSTANCE_AT, BLOCK_LENGTH, BLOCK_OUTPUTS_AT, BLOCK_TAG,
    BOUNDARY_INPUT_ATTRS, BOUNDARY_INPUT_TAG, BOUNDARY_OUTPUT_ATTRS, BOUNDARY_OUTPUT_TAG,
    CONNECTOR_ATTRS, CONNECTOR_CLASS_AT, CONNECTOR_DIR_AT, CONNECTOR_IRI_AT, CONNECTOR_TAG,
    CONNECTOR_TYPE_AT, Field, HEAD_TAG, LEADING_BYTES, TEXT_TAG,
};

// A field that lies in an image of a good size, and how many texts there are.
#[derive(Clone, Copy)]
pub struct Sieve<'a> {
    pub texts: usize,
    pub bytes: &'a [u8],
    pub field: Field,
    pub ghost inside: { field.at + leading_bytes + field.len ≤ length bytes.now },
    pub ghost size: { length bytes.now ≤ longest_image },
}

impl Sieve<'_> {
    // ---- contents

    // The attributes at an offset of the field, at fault under refusal 6 or 8.
    #[tactic(auto, unfolding(crate::specs::Faulty::attrs_faulty))]
    fn attrs_faulty(&self, at: usize) -> bool
        requires { at + attrs_length ≤ leading_bytes + self.now.field.len }
        ensures { result ≡ attrs_faulty self.now.texts (attrs_at self.now.bytes.now (self.now.field.at + at)) }
    {
        let a = attrs_inside(self.bytes, self.field.at + at);
        bad_attrs(&a) | bad_text_numbers(self.texts, &a)
    }

    // The same of a connector.
    #[tactic(auto, unfolding(crate::specs::Faulty::connector_faulty, oce_model::specs::Model::connector_at, oce_model::specs::Refusals::bad_connector))]
    fn connector_faulty(&self) -> bool
        requires { connector_size ≤ leading_bytes + self.now.field.len }
        ensures { result ≡ connector_faulty self.now.texts (connector_at self.now.bytes.now self.now.field.at) }
    {
        let at = self.field.at;
        let dir = read8(self.bytes, at + CONNECTOR_DIR_AT);
        let value_type = read8(self.bytes, at + CONNECTOR_TYPE_AT);
        let class = read32(self.bytes, at + CONNECTOR_CLASS_AT);
        bad_type(dir, value_type, class)
            | bad_or_none(self.texts, read16(self.bytes, at + CONNECTOR_IRI_AT))
            | self.attrs_faulty(CONNECTOR_ATTRS)
    }

    // The same of a boundary record, whose attributes stand at an offset of it.
    #[tactic(auto, unfolding(crate::specs::Faulty::boundary_faulty))]
    fn boundary_faulty(&self, attrs: usize) -> bool
        requires { (boundary_input_attrs ≤ attrs) × (attrs + attrs_length ≤ leading_bytes + self.now.field.len) }
        ensures { result ≡ boundary_faulty self.now.texts (le16 self.now.bytes.now (self.now.field.at + leading_bytes)) (attrs_at self.now.bytes.now (self.now.field.at + attrs)) }
    {
        (self.texts <= read16(self.bytes, self.field.at + LEADING_BYTES)) | self.attrs_faulty(attrs)
    }

    // Its length is its tag's, and it is at fault under one of refusals 6 to 8. A block has a test of its own.
    #[inline(always)]
    fn contents_faulty(&self) -> bool
        requires other_tag { self.now.field.tag ≢ block_tag }
        requires good_length { bad_length self.now.bytes.now self.now.field ≡ false }
        ensures { result ≡ (bad_contents self.now.bytes.now self.now.field || bad_text self.now.bytes.now self.now.field || bad_reference self.now.texts self.now.bytes.now self.now.field) }
    {
        match self.field.tag {
            HEAD_TAG => bad_head(self.bytes, self.field.at),
            TEXT_TAG => {
                let at = self.field.at + LEADING_BYTES;
                has_bad_byte(&self.bytes[at..at + self.field.len])
            }
            CONNECTOR_TAG => self.connector_faulty(),
            BOUNDARY_INPUT_TAG => self.boundary_faulty(BOUNDARY_INPUT_ATTRS),
            BOUNDARY_OUTPUT_TAG => self.boundary_faulty(BOUNDARY_OUTPUT_ATTRS),
            _ => false,
        }
    }

    // ---- refusals 4 to 8

    // A block is at fault.
    #[inline(always)]
    fn block_faulty(&self) -> bool
        requires { self.now.field.tag ≡ block_tag }
        ensures { result ≡ at_fault self.now.texts self.now.bytes.now self.now.field }
    {
        let f = self.field;
        if f.len < BLOCK_LENGTH {
            return true;
        }
        let inputs = read16(self.bytes, f.at + BLOCK_INPUTS_AT);
        let outputs = read16(self.bytes, f.at + BLOCK_OUTPUTS_AT);
        bad_ports(f.len, inputs, outputs)
            | too_many(f)
            | bad_or_none(self.texts, read16(self.bytes, f.at + BLOCK_INSTANCE_AT))
    }

    // Any field is at fault.
    #[inline(always)]
    pub fn is_faulty(&self) -> bool
        ensures { result ≡ at_fault self.now.texts self.now.bytes.now self.now.field }
    {
        if self.field.tag == BLOCK_TAG {
            return self.block_faulty();
        }
        bad_length(self.bytes, self.field) || too_many(self.field) | self.contents_faulty()
    }
}

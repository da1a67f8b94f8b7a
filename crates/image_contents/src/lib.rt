// Whether the contents of a field are at fault: refusal 6 (head, connector, attributes) and refusal 8
// (text numbers). Bytes past the image's end count as 0, as in the definitions.
#![tactic(auto)]

ghost use Rattle.std.specs.Prelude.{◌≡◌, ◌+◌, ◌<◌, ◌≤◌, length};
ghost use Rattle.image_contents.specs.Marks.{not_of_integer, bad_marks, stray_part, straying, bad_text_number, bad_type};
ghost use Rattle.oce_model.specs.Format.{longest_image, attrs_length};
ghost use Rattle.oce_model.specs.Attributes.{attrs_at};
ghost use Rattle.oce_model.specs.Model.{connector_at};
ghost use Rattle.oce_model.specs.Refusals.{attrs_offset, bad_head, bad_connector, bad_attrs, bad_contents, bad_text_numbers, bad_or_none, bad_reference};

use base::{copy_at, part_of};
use numbers::{LittleEndian, at16, at32, byte_at};
use oce_model::{
    ATTRS_DISPLAY_UNIT_AT, ATTRS_LENGTH, ATTRS_MARKS_AT, ATTRS_MAX_AT, ATTRS_MIN_AT,
    ATTRS_NOMINAL_AT, ATTRS_QUANTITY_AT, ATTRS_UNIT_AT, Attrs, BLOCK_INSTANCE_AT, BLOCK_TAG,
    BOUNDARY_INPUT_ATTRS, BOUNDARY_INPUT_IRI_AT, BOUNDARY_INPUT_TAG, BOUNDARY_OUTPUT_ATTRS,
    BOUNDARY_OUTPUT_IRI_AT, BOUNDARY_OUTPUT_TAG, CONNECTOR_ATTRS, CONNECTOR_CLASS_AT,
    CONNECTOR_DIR_AT, CONNECTOR_IRI_AT, CONNECTOR_TAG, CONNECTOR_TYPE_AT, DISPLAY_UNIT_BIT, Dir,
    Field, HEAD_TAG, HEAD_VERSION_AT, HEAD_ZEROS_AT, Kind, MAX_BIT, MIN_BIT, NO_TEXT, NOMINAL_BIT,
    NUMBER_COUNT, QUANTITY_BIT, UNBOUNDED_BIT, UNBOUNDED_VALUE_BIT, UNIT_BIT, VERSION,
};

// ---- attributes, read

// The attributes at an offset, where all their bytes lie in the image.
#[tactic(auto, unfolding(oce_model::specs::Attributes::attrs_at))]
pub fn attrs_inside(s: &[u8], at: usize) -> Attrs
    requires { at + attrs_length ≤ length s.now }
    ensures { result ≡ attrs_at s.now at }
{
    Attrs {
        kind: u8::read(s, at),
        marks: u8::read(s, at + ATTRS_MARKS_AT),
        nums: [
            u64::from(u16::read(s, at + ATTRS_QUANTITY_AT)),
            u64::from(u16::read(s, at + ATTRS_UNIT_AT)),
            u64::from(u16::read(s, at + ATTRS_DISPLAY_UNIT_AT)),
            u64::read(s, at + ATTRS_MIN_AT),
            u64::read(s, at + ATTRS_MAX_AT),
            u64::read(s, at + ATTRS_NOMINAL_AT),
        ],
    }
}

// The attributes at any offset: bytes past the image's end count as 0.
pub fn attrs_padded(s: &[u8], at: usize) -> Attrs
    ensures { result ≡ attrs_at s.now at }
{
    let mut bytes = [0; ATTRS_LENGTH];
    copy_at(&mut bytes, 0, part_of(s, at, ATTRS_LENGTH));
    attrs_inside(&bytes, 0)
}

// ---- tests of attributes, however they were read. Their numbers are as good as random: both sides of a
// test are computed, so that nothing has to be foreseen

// The number under bit p, if the bit isn't set, else 0.
fn stray_part(a: &Attrs, p: usize) -> u64
    requires { p < NUMBER_COUNT }
    ensures { result ≡ stray_part a.now p }
{
    if a.is_marked(p) { 0 } else { a.number(p) }
}

// One of the numbers stands under a bit that isn't set.
pub fn is_straying(a: &Attrs) -> bool
    ensures { result ≡ straying a.now }
{
    let strays = stray_part(a, QUANTITY_BIT)
        | stray_part(a, UNIT_BIT)
        | stray_part(a, DISPLAY_UNIT_BIT)
        | stray_part(a, MIN_BIT)
        | stray_part(a, MAX_BIT)
        | stray_part(a, NOMINAL_BIT);
    strays != 0
}

// A bit is set that no Integer has: it has min and max alone.
fn bad_integer_marks(a: &Attrs) -> bool
    ensures { result ≡ not_of_integer a.now.marks }
{
    a.is_marked(QUANTITY_BIT)
        | a.is_marked(UNIT_BIT)
        | a.is_marked(DISPLAY_UNIT_BIT)
        | a.is_marked(NOMINAL_BIT)
        | a.is_marked(UNBOUNDED_BIT)
}

// The kind is none, bit 7 stands without bit 6, or the set bits are not the kind's.
pub fn bad_marks(a: &Attrs) -> bool
    ensures { result ≡ bad_marks a.now }
{
    (a.kind > Kind::Enum as u8)
        | (a.is_marked(UNBOUNDED_VALUE_BIT) & !a.is_marked(UNBOUNDED_BIT))
        | (a.has_kind(Kind::Integer) & bad_integer_marks(a))
        | ((a.kind > Kind::Integer as u8) & (a.marks != 0))
}

// Attributes break a rule of theirs (refusal 6): kind, marks, or a number that isn't marked and isn't 0.
#[tactic(auto, unfolding(oce_model::specs::Refusals::bad_attrs, oce_model::specs::Refusals::stray), using(crate::proofs::Laws::spread))]
pub fn bad_attrs(a: &Attrs) -> bool
    ensures { result ≡ bad_attrs a.now }
{
    bad_marks(a) | is_straying(a)
}

// Of n texts, none has the number under bit p, which is set.
fn bad_text_number(n: usize, a: &Attrs, p: usize) -> bool
    requires { p < NUMBER_COUNT }
    ensures { result ≡ bad_text_number n a.now p }
{
    a.is_marked(p) & (n as u64 <= a.number(p))
}

// A text number that the attributes mark as set is none of n texts' (refusal 8).
#[tactic(auto, unfolding(oce_model::specs::Refusals::bad_text_numbers))]
pub fn bad_text_numbers(n: usize, a: &Attrs) -> bool
    ensures { result ≡ bad_text_numbers n a.now }
{
    bad_text_number(n, a, QUANTITY_BIT)
        | bad_text_number(n, a, UNIT_BIT)
        | bad_text_number(n, a, DISPLAY_UNIT_BIT)
}

// ---- tests of other numbers of a record

// A text number that may mean none is none of n texts'.
#[tactic(auto, unfolding(oce_model::specs::Refusals::bad_or_none))]
pub fn bad_or_none(n: usize, number: usize) -> bool
    ensures { result ≡ bad_or_none n number }
{
    (n <= number) & (number != usize::from(NO_TEXT))
}

// A connector's direction, type and enum class: no such direction or type, or a class without being an enum.
pub fn bad_type(dir: usize, value_type: usize, class: usize) -> bool
    ensures { result ≡ bad_type dir value_type class }
{
    (dir > Dir::Out as usize)
        | (value_type > Kind::Enum as usize)
        | ((value_type != Kind::Enum as usize) & (class != 0))
}

// ---- a field

// The head has another version, or zero bytes that aren't.
#[tactic(auto, unfolding(oce_model::specs::Refusals::bad_head))]
pub fn bad_head(s: &[u8], at: usize) -> bool
    requires { at ≤ longest_image }
    ensures { result ≡ bad_head s.now at }
{
    at16(s, at + HEAD_VERSION_AT) != VERSION || at16(s, at + HEAD_ZEROS_AT) != 0
}

// A connector has no such direction, type, or a class without being an enum.
#[tactic(auto, unfolding(oce_model::specs::Refusals::bad_connector, oce_model::specs::Model::connector_at))]
pub fn bad_connector(s: &[u8], at: usize) -> bool
    requires { at ≤ longest_image }
    ensures { result ≡ bad_connector (connector_at s.now at) }
{
    bad_type(
        byte_at(s, at + CONNECTOR_DIR_AT),
        byte_at(s, at + CONNECTOR_TYPE_AT),
        at32(s, at + CONNECTOR_CLASS_AT),
    )
}

// Where the attributes of a field stand, if it has any.
#[tactic(auto, unfolding(oce_model::specs::Refusals::attrs_offset))]
fn attrs_offset(f: Field) -> Option<usize>
    requires { f.at ≤ longest_image }
    ensures { result ≡ attrs_offset f }
{
    match f.tag {
        CONNECTOR_TAG => Some(f.at + CONNECTOR_ATTRS),
        BOUNDARY_INPUT_TAG => Some(f.at + BOUNDARY_INPUT_ATTRS),
        BOUNDARY_OUTPUT_TAG => Some(f.at + BOUNDARY_OUTPUT_ATTRS),
        _ => None,
    }
}

// A field's contents break refusal 6.
#[tactic(auto, unfolding(oce_model::specs::Refusals::bad_contents))]
pub fn bad_contents(s: &[u8], f: Field) -> bool
    requires { f.at ≤ longest_image }
    ensures { result ≡ bad_contents s.now f }
{
    (f.tag == HEAD_TAG && bad_head(s, f.at))
        || (f.tag == CONNECTOR_TAG && bad_connector(s, f.at))
        || attrs_offset(f).is_some_and(|at| bad_attrs(&attrs_padded(s, at)))
}

// A field has a text number that is none of n texts' (refusal 8).
#[tactic(auto, unfolding(oce_model::specs::Refusals::bad_reference, oce_model::specs::Model::block_at, oce_model::specs::Model::connector_at, oce_model::specs::Model::boundary_input_at, oce_model::specs::Model::boundary_output_at))]
pub fn bad_reference(n: usize, s: &[u8], f: Field) -> bool
    requires { f.at ≤ longest_image }
    ensures { result ≡ bad_reference n s.now f }
{
    (f.tag == BLOCK_TAG && bad_or_none(n, at16(s, f.at + BLOCK_INSTANCE_AT)))
        || (f.tag == CONNECTOR_TAG && bad_or_none(n, at16(s, f.at + CONNECTOR_IRI_AT)))
        || (f.tag == BOUNDARY_INPUT_TAG && n <= at16(s, f.at + BOUNDARY_INPUT_IRI_AT))
        || (f.tag == BOUNDARY_OUTPUT_TAG && n <= at16(s, f.at + BOUNDARY_OUTPUT_IRI_AT))
        || attrs_offset(f).is_some_and(|at| bad_text_numbers(n, &attrs_padded(s, at)))
}

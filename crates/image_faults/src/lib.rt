// Whether a field of an image is at fault under refusals 3 to 8. Bytes past the image's end count as 0,
// as in the definitions.
#![tactic(auto)]

ghost use Rattle.std.specs.Prelude.{◌≡◌, not, ◌||◌, ◌+◌, ◌*◌, ◌<◌, ◌≤◌, eqb, ltb};
ghost use Rattle.base.specs.Lists.{any};
ghost use Rattle.numbers.specs.Bytes.{short_range};
ghost use Rattle.oce_model.specs.Format.{block_length, port_length, most_ports, most, fixed_length, longest_image};
ghost use Rattle.oce_model.specs.Texts.{is_text_byte};
ghost use Rattle.oce_model.specs.Refusals.{bad_tag, bad_block_length, bad_length, too_many, bad_text};

use base::part_of;
use numbers::at16;
use oce_model::{
    BLOCK_INPUTS_AT, BLOCK_LENGTH, BLOCK_OUTPUTS_AT, BLOCK_TAG, BOUNDARY_INPUT_LENGTH,
    BOUNDARY_INPUT_TAG, BOUNDARY_OUTPUT_LENGTH, BOUNDARY_OUTPUT_TAG, CONNECTION_LENGTH,
    CONNECTION_TAG, CONNECTOR_LENGTH, CONNECTOR_TAG, EXTERNAL_INPUT_LENGTH, EXTERNAL_INPUT_TAG,
    FIRST_TEXT_BYTE, Field, HEAD_LENGTH, HEAD_TAG, HIGHEST_TAG, LAST_TEXT_BYTE, LEADING_BYTES,
    LONGEST_TEXT, MOST_BLOCKS, MOST_BOUNDARY_INPUTS, MOST_BOUNDARY_OUTPUTS, MOST_CONNECTIONS,
    MOST_CONNECTORS, MOST_EXTERNAL_INPUTS, MOST_HEADS, MOST_PORTS, MOST_TEXTS, PORT_LENGTH,
    TEXT_TAG,
};

// ---- 3: tags

// A tag that no field has, that falls, or a head where none may stand.
#[tactic(auto, unfolding(oce_model::specs::Refusals::bad_tag, oce_model::specs::Refusals::tag_is_bad))]
pub fn bad_tag(f: Field) -> bool
    ensures { result ≡ bad_tag f }
{
    f.tag == 0
        || HIGHEST_TAG < f.tag
        || f.tag < f.prev
        || if f.prev == 0 {
            f.tag != HEAD_TAG
        } else {
            f.tag == HEAD_TAG
        }
}

// ---- 4: lengths

// A block's length by its port counts, and those counts.
pub fn bad_ports(len: usize, inputs: usize, outputs: usize) -> bool
    requires { (inputs < short_range) × (outputs < short_range) }
    ensures { result ≡ (not (eqb len (block_length + port_length * (inputs + outputs))) || ltb most_ports inputs || ltb most_ports outputs) }
{
    (len != BLOCK_LENGTH + PORT_LENGTH * (inputs + outputs))
        | (MOST_PORTS < inputs)
        | (MOST_PORTS < outputs)
}

// A block's length isn't that of its ports, or it has too many of them.
#[tactic(auto, unfolding(oce_model::specs::Refusals::bad_block_length))]
fn bad_block_length(s: &[u8], f: Field) -> bool
    requires { f.at ≤ longest_image }
    ensures { result ≡ bad_block_length s.now f }
{
    bad_ports(
        f.len,
        at16(s, f.at + BLOCK_INPUTS_AT),
        at16(s, f.at + BLOCK_OUTPUTS_AT),
    )
}

// The length of a tag's contents, where that is fixed.
#[tactic(auto, unfolding(oce_model::specs::Format::fixed_length))]
fn fixed_length(tag: usize) -> usize
    ensures { result ≡ fixed_length tag }
{
    match tag {
        HEAD_TAG => HEAD_LENGTH,
        CONNECTOR_TAG => CONNECTOR_LENGTH,
        CONNECTION_TAG => CONNECTION_LENGTH,
        EXTERNAL_INPUT_TAG => EXTERNAL_INPUT_LENGTH,
        BOUNDARY_INPUT_TAG => BOUNDARY_INPUT_LENGTH,
        BOUNDARY_OUTPUT_TAG => BOUNDARY_OUTPUT_LENGTH,
        _ => 0,
    }
}

// A field's length isn't its tag's.
#[tactic(auto, unfolding(oce_model::specs::Refusals::bad_length))]
pub fn bad_length(s: &[u8], f: Field) -> bool
    requires { f.at ≤ longest_image }
    ensures { result ≡ bad_length s.now f }
{
    match f.tag {
        TEXT_TAG => LONGEST_TEXT < f.len,
        BLOCK_TAG => bad_block_length(s, f),
        tag => f.len != fixed_length(tag),
    }
}

// ---- 5: how many

// The most records of a tag.
#[tactic(auto, unfolding(oce_model::specs::Format::most))]
fn most_of(tag: usize) -> usize
    ensures { result ≡ most tag }
{
    match tag {
        HEAD_TAG => MOST_HEADS,
        TEXT_TAG => MOST_TEXTS,
        BLOCK_TAG => MOST_BLOCKS,
        CONNECTOR_TAG => MOST_CONNECTORS,
        CONNECTION_TAG => MOST_CONNECTIONS,
        EXTERNAL_INPUT_TAG => MOST_EXTERNAL_INPUTS,
        BOUNDARY_INPUT_TAG => MOST_BOUNDARY_INPUTS,
        BOUNDARY_OUTPUT_TAG => MOST_BOUNDARY_OUTPUTS,
        _ => 0,
    }
}

// A field beyond the most that its tag may have.
#[tactic(auto, unfolding(oce_model::specs::Refusals::too_many))]
pub fn too_many(f: Field) -> bool
    ensures { result ≡ too_many f }
{
    most_of(f.tag) <= f.ord
}

// ---- 7: texts

// A byte that a text may hold.
#[tactic(auto, unfolding(oce_model::specs::Texts::is_text_byte))]
fn is_text_byte(b: u8) -> bool
    ensures { result ≡ is_text_byte b }
{
    (FIRST_TEXT_BYTE..=LAST_TEXT_BYTE).contains(&usize::from(b))
}

// A byte that no text may hold is among these.
pub fn has_bad_byte(bytes: &[u8]) -> bool
    ensures { result ≡ any (λ b. not (is_text_byte b)) bytes.now }
{
    bytes.iter().any(|b| !is_text_byte(*b))
}

// A text holds a byte that no text may hold.
#[tactic(auto, unfolding(oce_model::specs::Refusals::bad_text, oce_model::specs::Texts::text_of))]
pub fn bad_text(s: &[u8], f: Field) -> bool
    requires { f.at ≤ longest_image }
    ensures { result ≡ bad_text s.now f }
{
    f.tag == TEXT_TAG && has_bad_byte(part_of(s, f.at + LEADING_BYTES, f.len))
}

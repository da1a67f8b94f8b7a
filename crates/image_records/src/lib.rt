// The records of an accepted image, read by their numbers. Once it is accepted no reading fails: the layout
// says where each record stands.
#![tactic(auto)]

ghost use Rattle.std.specs.Prelude.{cond, eqb, ◌≡◌, ◌+◌, ◌≤◌, length};
ghost use Rattle.oce_model.specs.Format.{longest_image, connector_size, dir_in};
ghost use Rattle.oce_model.specs.declared.Dir.TheVariants.{In, Out};
ghost use Rattle.oce_model.specs.Model.{connector_at, kind_of};
ghost use Rattle.image_records.specs.Records.{connector_read};

mod blocks;
mod image;

pub use blocks::{Block, Ids};
pub use image::Image;
pub use image_accept::Tables;
use numbers::LittleEndian;
use oce_model::{
    BlockId, CONNECTOR_BLOCK_AT, CONNECTOR_CLASS_AT, CONNECTOR_DIR_AT, CONNECTOR_ID_AT,
    CONNECTOR_IRI_AT, CONNECTOR_TYPE_AT, ConnectorFront, ConnectorId, Dir, Kind,
};

// The direction of a number: an accepted image has none but these two.
fn dir_of(number: u8) -> Dir
    ensures { result ≡ cond (eqb number dir_in) In Out }
{
    if number == Dir::In as u8 {
        Dir::In
    } else {
        Dir::Out
    }
}

// The type of a number: an accepted image has none but these.
#[tactic(auto, unfolding(oce_model::specs::Model::kind_of))]
fn kind_of(number: u8) -> Kind
    ensures { result ≡ kind_of number }
{
    match number {
        0 => Kind::Real,
        1 => Kind::Integer,
        2 => Kind::Boolean,
        3 => Kind::String,
        _ => Kind::Enum,
    }
}

// The connector whose field stands at an offset, what stands in front of its attributes.
fn connector_at(bytes: &[u8], at: usize) -> ConnectorFront
    requires { (at ≤ longest_image) × (at + connector_size ≤ length bytes.now) }
    ensures { result ≡ connector_read (connector_at bytes.now at) }
{
    ConnectorFront {
        id: ConnectorId(u32::read(bytes, at + CONNECTOR_ID_AT)),
        block: BlockId(u32::read(bytes, at + CONNECTOR_BLOCK_AT)),
        dir: dir_of(u8::read(bytes, at + CONNECTOR_DIR_AT)),
        value_type: kind_of(u8::read(bytes, at + CONNECTOR_TYPE_AT)),
        class: u32::read(bytes, at + CONNECTOR_CLASS_AT),
        iri: u16::read(bytes, at + CONNECTOR_IRI_AT),
    }
}

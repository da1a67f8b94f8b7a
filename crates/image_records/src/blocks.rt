// A block of an accepted image, with the ids of its ports.

ghost use Rattle.std.specs.Prelude.{◌≡◌, ◌<◌, ◌≤◌, length, get_or};
ghost use Rattle.oce_model.specs.Format.{most_ports};
ghost use Rattle.oce_model.specs.Model.{block_at};
ghost use Rattle.image_records.specs.Images.{block_value, BlockInside};

use numbers::LittleEndian;
use oce_model::{
    BLOCK_ID_AT, BLOCK_INPUTS_AT, BLOCK_INSTANCE_AT, BLOCK_OUTPUTS_AT, BLOCK_PORTS, BlockId,
    PORT_LENGTH,
};
use std::marker::Model;

// The ids of a block's inputs or of its outputs. Clauses see their list.
#[derive(Drop)]
pub struct Ids<'a> {
    pub(crate) bytes: &'a [u8],
    pub(crate) at: usize,
    pub(crate) count: usize,
}

impl<'a> Model for Ids<'a> {
    ghost use Rattle.std.specs.Prelude.{◌+◌, ◌*◌, ◌≤◌, ℕ, List, length};
    ghost use Rattle.oce_model.specs.Format.{port_length, most_ports, longest_image};
    ghost use Rattle.oce_model.specs.Model.{ids_at};

    ghost Value = { List ℕ };

    ghost view = { λ a. ids_at a.bytes.now a.at a.count };

    ghost invariant = { λ a. (a.count ≤ most_ports) × (a.at ≤ longest_image + longest_image) × (a.at + port_length * a.count ≤ length a.bytes.now) };
}

impl Ids<'_> {
    // How many there are.
    pub fn count(&self) -> usize
        ensures { (result ≡ length self.now) × (result ≤ most_ports) }
    {
        self.count
    }

    // The id of port j.
    pub fn id(&self, j: usize) -> u32
        requires { j < length self.now }
        ensures { result ≡ get_or self.now j 0 }
    {
        u32::read(self.bytes, self.at + PORT_LENGTH * j)
    }
}

// The Rust's `BlockInstance`.
#[derive(Drop)]
pub struct Block<'a> {
    pub id: BlockId,
    pub instance: u16,
    pub inputs: Ids<'a>,
    pub outputs: Ids<'a>,
}

// The block whose field stands at an offset.
pub(crate) fn block_at(bytes: &[u8], at: usize) -> Block<'_>
    requires { BlockInside bytes.now at }
    ensures { result ≡ block_value (block_at bytes.now at) }
{
    let inputs = usize::from(u16::read(bytes, at + BLOCK_INPUTS_AT));
    let outputs = usize::from(u16::read(bytes, at + BLOCK_OUTPUTS_AT));
    Block {
        id: BlockId(u32::read(bytes, at + BLOCK_ID_AT)),
        instance: u16::read(bytes, at + BLOCK_INSTANCE_AT),
        inputs: Ids {
            bytes,
            at: at + BLOCK_PORTS,
            count: inputs,
        },
        outputs: Ids {
            bytes,
            at: at + BLOCK_PORTS + PORT_LENGTH * inputs,
            count: outputs,
        },
    }
}

// An accepted image, with its records by their numbers. Clauses see it as its bytes.

ghost use Rattle.std.specs.Prelude.{◌≡◌, ◌+◌, ◌<◌, ◌≤◌, ℕ, List, length, get_or};
ghost use Rattle.std.specs.Prelude.{None};
ghost use Rattle.oce_model.specs.Format.{longest_image, connector_attrs, attrs_length, text_tag, block_tag, most_blocks, most_connectors, most_connections, most_external_inputs, most_boundary_inputs, most_boundary_outputs};
ghost use Rattle.oce_model.specs.Attributes.{attrs_at};
ghost use Rattle.oce_model.specs.Model.{dir_number, kind_number, model_of, block_count, connector_count, connection_count, boundary_input_count, boundary_output_count, block, block_at, connector, connection, boundary_input, boundary_output, text};
ghost use Rattle.base.specs.Lists.{same};
ghost use Rattle.oce_model.specs.Texts.{order};
ghost use Rattle.oce_model.specs.Refusals.{refusal};
ghost use Rattle.image_accept.specs.Layout.{Laid, Tabled, offsets_of};
ghost use Rattle.image_records.specs.Records.{connector_read, connection_read, output_read};
ghost use Rattle.image_records.specs.Images.{block_value, Accepts, BlockInside};

use super::blocks::{Block, block_at};
use super::connector_at;
use base::part_of;
use image_accept::{Layout, Tables, accept};
use image_contents::attrs_inside;
use image_texts::{order_of, same_bytes};
use numbers::{LittleEndian, at16};
use oce_model::{
    Attrs, BOUNDARY_INPUT_ATTRS, BOUNDARY_INPUT_IRI_AT, BOUNDARY_INPUT_SIZE, BOUNDARY_OUTPUT_ATTRS,
    BOUNDARY_OUTPUT_IRI_AT, BOUNDARY_OUTPUT_SIZE, BOUNDARY_OUTPUT_SOURCE_AT, BlockId,
    BoundaryOutputFront, CONNECTION_FROM_AT, CONNECTION_SIZE, CONNECTION_TO_AT, CONNECTOR_ATTRS,
    CONNECTOR_SIZE, Connection, ConnectorFront, ConnectorId, EXTERNAL_INPUT_ID_AT,
    EXTERNAL_INPUT_SIZE, FIELD_LENGTH_AT, LEADING_BYTES, Refusal,
};
use std::cmp::Ordering;
use std::marker::Model;

// The bytes of an accepted image, where its records stand, and the offsets of its texts and blocks.
#[derive(Drop)]
pub struct Image<'a, 't> {
    pub(crate) bytes: &'a [u8],
    pub(crate) layout: Layout,
    pub(crate) texts: &'t [usize],
    pub(crate) blocks: &'t [usize],
}

impl<'a, 't> Model for Image<'a, 't> {
    ghost Value = { List ℕ };

    ghost view = { λ a. a.bytes.now };

    ghost invariant = { λ a. Laid a.bytes.now a.layout × (a.texts.now ≡ offsets_of text_tag a.bytes.now) × (a.blocks.now ≡ offsets_of block_tag a.bytes.now) };
}

impl<'a, 't> Image<'a, 't> {
    // An image that was accepted, of what acceptance gives: its layout, and tables that begin with the offsets of its
    // texts and of its blocks.
    pub fn of(
        bytes: &'a [u8],
        layout: Layout,
        texts: &'t [usize],
        blocks: &'t [usize],
    ) -> Image<'a, 't>
        requires { Laid bytes.now layout × Tabled text_tag bytes.now texts.now × Tabled block_tag bytes.now blocks.now }
        ensures { result ≡ bytes.now }
    {
        Image {
            bytes,
            layout,
            texts: &texts[..layout.texts.count],
            blocks: &blocks[..layout.blocks.count],
        }
    }

    // Accepts an image, or says why not. The tables are room for the offsets.
    pub fn accept(bytes: &'a [u8], tables: &'t mut Tables) -> Result<Image<'a, 't>, Refusal>
        ensures { Accepts bytes.now result }
    {
        let layout = accept(bytes, tables)?;
        Ok(Image::of(bytes, layout, &tables.texts, &tables.blocks))
    }

    // All of its bytes.
    pub fn bytes(&self) -> &'a [u8]
        ensures bytes { result.now ≡ self.now }
        ensures accepted { refusal self.now ≡ None }
    {
        self.bytes
    }

    // Where its records stand.
    pub fn layout(&self) -> &Layout
        ensures { Laid self.now result.now }
    {
        &self.layout
    }

    // ---- how many records there are, of each kind

    // Blocks.
    pub fn block_count(&self) -> usize
        ensures { (result ≡ block_count (model_of self.now)) × (result ≤ most_blocks) }
    {
        self.layout.blocks.count
    }

    // Connectors.
    pub fn connector_count(&self) -> usize
        ensures { (result ≡ connector_count (model_of self.now)) × (result ≤ most_connectors) }
    {
        self.layout.connectors.count
    }

    // Connections.
    pub fn connection_count(&self) -> usize
        ensures { (result ≡ connection_count (model_of self.now)) × (result ≤ most_connections) }
    {
        self.layout.connections.count
    }

    // External inputs.
    pub fn external_input_count(&self) -> usize
        ensures { (result ≡ length (model_of self.now).external_inputs) × (result ≤ most_external_inputs) }
    {
        self.layout.externals.count
    }

    // Boundary inputs.
    pub fn boundary_input_count(&self) -> usize
        ensures { (result ≡ boundary_input_count (model_of self.now)) × (result ≤ most_boundary_inputs) }
    {
        self.layout.inputs.count
    }

    // Boundary outputs.
    pub fn boundary_output_count(&self) -> usize
        ensures { (result ≡ boundary_output_count (model_of self.now)) × (result ≤ most_boundary_outputs) }
    {
        self.layout.outputs.count
    }

    // ---- texts

    // The bytes of text i, none where there is no such text.
    pub fn text(&self, i: usize) -> &'a [u8]
        ensures { result.now ≡ text (model_of self.now) i }
    {
        match self.texts.get(i) {
            Some(&at) => {
                let length = at16(self.bytes, at + FIELD_LENGTH_AT);
                part_of(self.bytes, at + LEADING_BYTES, length)
            }
            None => &[],
        }
    }

    // Two texts, by their numbers, have the same bytes.
    pub fn same_text(&self, i: usize, j: usize) -> bool
        ensures { result ≡ same (text (model_of self.now) i) (text (model_of self.now) j) }
    {
        i == j || same_bytes(self.text(i), self.text(j))
    }

    // How text i stands to text j.
    pub fn text_order(&self, i: usize, j: usize) -> Ordering
        ensures { result ≡ order (text (model_of self.now) i) (text (model_of self.now) j) }
    {
        if i == j {
            Ordering::Equal
        } else {
            order_of(self.text(i), self.text(j))
        }
    }

    // ---- blocks

    // Where block i stands.
    pub fn block_offset(&self, i: BlockId) -> usize
        requires { i.0 < block_count (model_of self.now) }
        ensures { (block (model_of self.now) i.0 ≡ block_at self.now result) × BlockInside self.now result }
    {
        self.blocks[i.0 as usize]
    }

    // Block i.
    pub fn block(&self, i: BlockId) -> Block<'a>
        requires { i.0 < block_count (model_of self.now) }
        ensures { result ≡ block_value (block (model_of self.now) i.0) }
    {
        block_at(self.bytes, self.block_offset(i))
    }

    // ---- connectors, connections and external inputs

    // Connector i, what stands in front of its attributes.
    pub fn connector(&self, i: ConnectorId) -> ConnectorFront
        requires { i.0 < connector_count (model_of self.now) }
        ensures { (result ≡ connector_read (connector (model_of self.now) i.0)) × (dir_number result.dir ≡ (connector (model_of self.now) i.0).dir) × (kind_number result.value_type ≡ (connector (model_of self.now) i.0).value_type) }
    {
        connector_at(
            self.bytes,
            self.layout
                .connectors
                .record_at(CONNECTOR_SIZE, i.0 as usize),
        )
    }

    // Where a connector's attributes stand.
    pub fn connector_attrs_at(&self, i: ConnectorId) -> usize
        requires { i.0 < connector_count (model_of self.now) }
        ensures { (attrs_at self.now result ≡ (connector (model_of self.now) i.0).attrs) × (result ≤ longest_image + connector_attrs) × (result + attrs_length ≤ length self.now) }
    {
        let at = self
            .layout
            .connectors
            .record_at(CONNECTOR_SIZE, i.0 as usize);
        at + CONNECTOR_ATTRS
    }

    // Its attributes.
    pub fn connector_attrs(&self, i: ConnectorId) -> Attrs
        requires { i.0 < connector_count (model_of self.now) }
        ensures { result ≡ (connector (model_of self.now) i.0).attrs }
    {
        attrs_inside(self.bytes, self.connector_attrs_at(i))
    }

    // Connection k.
    pub fn connection(&self, k: usize) -> Connection
        requires { k < connection_count (model_of self.now) }
        ensures { result ≡ connection_read (connection (model_of self.now) k) }
    {
        let at = self.layout.connections.record_at(CONNECTION_SIZE, k);
        Connection {
            from: ConnectorId(u32::read(self.bytes, at + CONNECTION_FROM_AT)),
            to: ConnectorId(u32::read(self.bytes, at + CONNECTION_TO_AT)),
        }
    }

    // External input i.
    pub fn external_input(&self, i: usize) -> ConnectorId
        requires { i < length (model_of self.now).external_inputs }
        ensures { result.0 ≡ get_or (model_of self.now).external_inputs i 0 }
    {
        let at = self.layout.externals.record_at(EXTERNAL_INPUT_SIZE, i);
        ConnectorId(u32::read(self.bytes, at + EXTERNAL_INPUT_ID_AT))
    }

    // ---- boundary records

    // The text number of boundary input i's iri.
    pub fn boundary_input_iri(&self, i: usize) -> u16
        requires { i < boundary_input_count (model_of self.now) }
        ensures { result ≡ (boundary_input (model_of self.now) i).iri }
    {
        let at = self.layout.inputs.record_at(BOUNDARY_INPUT_SIZE, i);
        u16::read(self.bytes, at + BOUNDARY_INPUT_IRI_AT)
    }

    // Where its attributes stand.
    pub fn boundary_input_attrs_at(&self, i: usize) -> usize
        requires { i < boundary_input_count (model_of self.now) }
        ensures { (attrs_at self.now result ≡ (boundary_input (model_of self.now) i).attrs) × (result ≤ longest_image + connector_attrs) × (result + attrs_length ≤ length self.now) }
    {
        let at = self.layout.inputs.record_at(BOUNDARY_INPUT_SIZE, i);
        at + BOUNDARY_INPUT_ATTRS
    }

    // Its attributes.
    pub fn boundary_input_attrs(&self, i: usize) -> Attrs
        requires { i < boundary_input_count (model_of self.now) }
        ensures { result ≡ (boundary_input (model_of self.now) i).attrs }
    {
        attrs_inside(self.bytes, self.boundary_input_attrs_at(i))
    }

    // Boundary output i, what stands in front of its attributes.
    pub fn boundary_output(&self, i: usize) -> BoundaryOutputFront
        requires { i < boundary_output_count (model_of self.now) }
        ensures { result ≡ output_read (boundary_output (model_of self.now) i) }
    {
        let at = self.layout.outputs.record_at(BOUNDARY_OUTPUT_SIZE, i);
        BoundaryOutputFront {
            iri: u16::read(self.bytes, at + BOUNDARY_OUTPUT_IRI_AT),
            source: ConnectorId(u32::read(self.bytes, at + BOUNDARY_OUTPUT_SOURCE_AT)),
        }
    }

    // Where its attributes stand.
    pub fn boundary_output_attrs_at(&self, i: usize) -> usize
        requires { i < boundary_output_count (model_of self.now) }
        ensures { (attrs_at self.now result ≡ (boundary_output (model_of self.now) i).attrs) × (result ≤ longest_image + connector_attrs) × (result + attrs_length ≤ length self.now) }
    {
        let at = self.layout.outputs.record_at(BOUNDARY_OUTPUT_SIZE, i);
        at + BOUNDARY_OUTPUT_ATTRS
    }

    // Its attributes.
    pub fn boundary_output_attrs(&self, i: usize) -> Attrs
        requires { i < boundary_output_count (model_of self.now) }
        ensures { result ≡ (boundary_output (model_of self.now) i).attrs }
    {
        attrs_inside(self.bytes, self.boundary_output_attrs_at(i))
    }
}

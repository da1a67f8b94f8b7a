// The records of a model, as oce-model has them, and the fields of an image.
#![tactic(auto)]

ghost use Rattle.std.specs.Prelude.{◌≡◌, ◌<◌, eqb};
ghost use Rattle.numbers.specs.Bytes.{bit};
ghost use Rattle.oce_model.specs.Attributes.{num, real_attrs, int_attrs};
ghost use Rattle.oce_model.specs.Model.{inwards, kind_number};

use numbers::{LittleEndian, int_of_bits, is_set, real_of_bits};

// A field of an image: the offset of its tag, the tag, the length of its contents, the tag of the field
// before (0 for the first), and how many fields with its tag stand right before it. Where tags don't
// fall, those are all with its tag.
#[derive(Clone, Copy)]
pub struct Field {
    pub at: usize,
    pub tag: usize,
    pub len: usize,
    pub prev: usize,
    pub ord: usize,
}

// Why an image is refused: the refusal's number by FORMAT 6, and an offset.
#[derive(Clone, Copy, PartialEq, Eq, Debug)]
pub struct Refusal {
    pub number: u32,
    pub offset: u32,
}

// The Rust's `BlockId`: a block's number.
#[derive(Clone, Copy)]
pub struct BlockId(pub u32);

// The Rust's `ConnectorId`: a connector's number, another type than a block's.
#[derive(Clone, Copy)]
pub struct ConnectorId(pub u32);

// What stands in front of a connector's attributes, the Rust's `Connector` without them; value_type and
// class are its `ValueType`.
#[derive(Clone, Copy)]
pub struct ConnectorFront {
    pub id: ConnectorId,
    pub block: BlockId,
    pub dir: Dir,
    pub value_type: Kind,
    pub class: u32,
    pub iri: u16,
}

// What stands in front of a boundary output's attributes, the Rust's `BoundaryOutput` without them.
#[derive(Clone, Copy)]
pub struct BoundaryOutputFront {
    pub iri: u16,
    pub source: ConnectorId,
}

// A connector's direction, by the numbers of FORMAT 3: the Rust's `Dir`.
#[derive(Clone, Copy, PartialEq, Eq, Debug)]
pub enum Dir {
    In,
    Out,
}

// Types and kinds of attributes, by the numbers of FORMAT 3.
#[derive(Clone, Copy, PartialEq, Eq, Debug)]
pub enum Kind {
    Real,
    Integer,
    Boolean,
    String,
    Enum,
}

// How many numbers a set of attributes has: one for each of the bits 0 to 5.
pub const NUMBER_COUNT: usize = 6;

// How many bits the byte of set bits has.
pub const MARK_COUNT: usize = 8;

// A set of attributes as an image has it, the Rust's `Attrs`: its kind, the byte of set bits, and the
// numbers of the bits 0 to 5, where the first three are text numbers and the others 64 bit patterns.
#[derive(Clone, Copy)]
pub struct Attrs {
    pub kind: u8,
    pub marks: u8,
    pub nums: [u64; NUMBER_COUNT],
}

// The Rust's `RealAttrs`: marks says what is set, texts are numbers.
#[derive(Clone, Copy)]
pub struct RealAttrs {
    pub marks: usize,
    pub quantity: usize,
    pub unit: usize,
    pub display: usize,
    pub min: f64,
    pub max: f64,
    pub nominal: f64,
}

// The Rust's `IntAttrs`: the ends that are set.
#[derive(Clone, Copy)]
pub struct IntAttrs {
    pub min: Option<i64>,
    pub max: Option<i64>,
}

// The Rust's `Connection`.
#[derive(Clone, Copy)]
pub struct Connection {
    pub from: ConnectorId,
    pub to: ConnectorId,
}

// ---- what a direction and what attributes say

impl Dir {
    // It is an input's.
    pub fn is_in(self) -> bool
        ensures { result ≡ inwards self }
    {
        matches!(self, Dir::In)
    }
}

impl Attrs {
    // They are of a kind.
    pub fn has_kind(&self, kind: Kind) -> bool
        ensures { result ≡ eqb self.now.kind (kind_number kind) }
    {
        self.kind == kind as u8
    }

    // Bit p is set.
    pub fn is_marked(&self, p: usize) -> bool
        requires { p < MARK_COUNT }
        ensures { result ≡ bit self.now.marks p }
    {
        is_set(usize::from(self.marks), p)
    }

    // The number under bit p.
    pub fn number(&self, p: usize) -> u64
        requires { p < NUMBER_COUNT }
        ensures { result ≡ num self.now p }
    {
        self.nums[p]
    }

    // As Real attributes.
    pub fn real(&self) -> RealAttrs
        ensures { result ≡ real_attrs self.now }
    {
        RealAttrs {
            marks: usize::from(self.marks),
            quantity: self.nums[QUANTITY_BIT] as usize,
            unit: self.nums[UNIT_BIT] as usize,
            display: self.nums[DISPLAY_UNIT_BIT] as usize,
            min: real_of_bits(self.nums[MIN_BIT]),
            max: real_of_bits(self.nums[MAX_BIT]),
            nominal: real_of_bits(self.nums[NOMINAL_BIT]),
        }
    }

    // As Integer attributes.
    pub fn integer(&self) -> IntAttrs
        ensures { result ≡ int_attrs self.now }
    {
        let min = int_of_bits(self.nums[MIN_BIT]);
        let max = int_of_bits(self.nums[MAX_BIT]);
        IntAttrs {
            min: self.is_marked(MIN_BIT).then_some(min),
            max: self.is_marked(MAX_BIT).then_some(max),
        }
    }
}

// ---- the numbers of the format that code cites, by the names of specs/Format.antt

pub const LEADING_BYTES: usize = 3;

// where a field's length stands, from its tag
pub const FIELD_LENGTH_AT: usize = 1;

pub const HEAD_TAG: usize = 1;

pub const TEXT_TAG: usize = 2;

pub const BLOCK_TAG: usize = 3;

pub const CONNECTOR_TAG: usize = 4;

pub const CONNECTION_TAG: usize = 5;

pub const EXTERNAL_INPUT_TAG: usize = 6;

pub const BOUNDARY_INPUT_TAG: usize = 7;

pub const BOUNDARY_OUTPUT_TAG: usize = 8;

pub const HIGHEST_TAG: usize = BOUNDARY_OUTPUT_TAG;

// the tags and 0, which none has
pub const TAG_COUNT: usize = HIGHEST_TAG + 1;

// the most records of each tag
pub const MOST_HEADS: usize = 1;

pub const MOST_TEXTS: usize = 1024;

pub const MOST_BLOCKS: usize = 256;

pub const MOST_CONNECTORS: usize = 1024;

pub const MOST_CONNECTIONS: usize = 2048;

pub const MOST_EXTERNAL_INPUTS: usize = 1024;

pub const MOST_BOUNDARY_INPUTS: usize = 256;

pub const MOST_BOUNDARY_OUTPUTS: usize = 256;

// the bytes and the length that a text may have
pub const FIRST_TEXT_BYTE: usize = 0x20;

pub const LAST_TEXT_BYTE: usize = 0x7E;

pub const LONGEST_TEXT: usize = 255;

pub const BLOCK_LENGTH: usize = 10;

pub const PORT_LENGTH: usize = 4;

pub const MOST_PORTS: usize = 256;

pub const SHORTEST_IMAGE: usize = LEADING_BYTES + HEAD_LENGTH;

pub const LONGEST_IMAGE: usize = 65535;

pub const VERSION: usize = 1;

pub const NO_TEXT: u16 = 65535;

pub const QUANTITY_BIT: usize = 0;

pub const UNIT_BIT: usize = 1;

pub const DISPLAY_UNIT_BIT: usize = 2;

pub const MIN_BIT: usize = 3;

pub const MAX_BIT: usize = 4;

pub const NOMINAL_BIT: usize = 5;

pub const UNBOUNDED_BIT: usize = 6;

pub const UNBOUNDED_VALUE_BIT: usize = 7;

// the bytes of each tag's contents, where that is fixed, and of a record with its leading bytes
pub const HEAD_LENGTH: usize = 20;

pub const CONNECTOR_LENGTH: usize = 48;

pub const CONNECTION_LENGTH: usize = 8;

pub const EXTERNAL_INPUT_LENGTH: usize = 4;

pub const BOUNDARY_INPUT_LENGTH: usize = 34;

pub const BOUNDARY_OUTPUT_LENGTH: usize = 38;

pub const CONNECTOR_SIZE: usize = LEADING_BYTES + CONNECTOR_LENGTH;

pub const CONNECTION_SIZE: usize = LEADING_BYTES + CONNECTION_LENGTH;

pub const EXTERNAL_INPUT_SIZE: usize = LEADING_BYTES + EXTERNAL_INPUT_LENGTH;

pub const BOUNDARY_INPUT_SIZE: usize = LEADING_BYTES + BOUNDARY_INPUT_LENGTH;

pub const BOUNDARY_OUTPUT_SIZE: usize = LEADING_BYTES + BOUNDARY_OUTPUT_LENGTH;

// where each part stands, from the start of its field
// the head
pub const HEAD_VERSION_AT: usize = LEADING_BYTES;

pub const HEAD_ZEROS_AT: usize = HEAD_VERSION_AT + u16::SIZE;

pub const HEAD_MIN_AT: usize = HEAD_ZEROS_AT + u16::SIZE;

pub const HEAD_MAX_AT: usize = HEAD_MIN_AT + u64::SIZE;

// a block; the ids of its ports stand behind
pub const BLOCK_ID_AT: usize = LEADING_BYTES;

pub const BLOCK_INSTANCE_AT: usize = BLOCK_ID_AT + u32::SIZE;

pub const BLOCK_INPUTS_AT: usize = BLOCK_INSTANCE_AT + u16::SIZE;

pub const BLOCK_OUTPUTS_AT: usize = BLOCK_INPUTS_AT + u16::SIZE;

pub const BLOCK_PORTS: usize = BLOCK_OUTPUTS_AT + u16::SIZE;

// a connector
pub const CONNECTOR_ID_AT: usize = LEADING_BYTES;

pub const CONNECTOR_BLOCK_AT: usize = CONNECTOR_ID_AT + u32::SIZE;

pub const CONNECTOR_DIR_AT: usize = CONNECTOR_BLOCK_AT + u32::SIZE;

pub const CONNECTOR_TYPE_AT: usize = CONNECTOR_DIR_AT + 1;

pub const CONNECTOR_CLASS_AT: usize = CONNECTOR_TYPE_AT + 1;

pub const CONNECTOR_IRI_AT: usize = CONNECTOR_CLASS_AT + u32::SIZE;

pub const CONNECTOR_ATTRS: usize = CONNECTOR_IRI_AT + u16::SIZE;

// a connection
pub const CONNECTION_FROM_AT: usize = LEADING_BYTES;

pub const CONNECTION_TO_AT: usize = CONNECTION_FROM_AT + u32::SIZE;

// an external input
pub const EXTERNAL_INPUT_ID_AT: usize = LEADING_BYTES;

// a boundary input
pub const BOUNDARY_INPUT_IRI_AT: usize = LEADING_BYTES;

pub const BOUNDARY_INPUT_ATTRS: usize = BOUNDARY_INPUT_IRI_AT + u16::SIZE;

// a boundary output
pub const BOUNDARY_OUTPUT_IRI_AT: usize = LEADING_BYTES;

pub const BOUNDARY_OUTPUT_SOURCE_AT: usize = BOUNDARY_OUTPUT_IRI_AT + u16::SIZE;

pub const BOUNDARY_OUTPUT_ATTRS: usize = BOUNDARY_OUTPUT_SOURCE_AT + u32::SIZE;

// attributes, from their own start
pub const ATTRS_MARKS_AT: usize = 1;

pub const ATTRS_QUANTITY_AT: usize = ATTRS_MARKS_AT + 1;

pub const ATTRS_UNIT_AT: usize = ATTRS_QUANTITY_AT + u16::SIZE;

pub const ATTRS_DISPLAY_UNIT_AT: usize = ATTRS_UNIT_AT + u16::SIZE;

pub const ATTRS_MIN_AT: usize = ATTRS_DISPLAY_UNIT_AT + u16::SIZE;

pub const ATTRS_MAX_AT: usize = ATTRS_MIN_AT + u64::SIZE;

pub const ATTRS_NOMINAL_AT: usize = ATTRS_MAX_AT + u64::SIZE;

// and how many bytes they have
pub const ATTRS_LENGTH: usize = ATTRS_NOMINAL_AT + u64::SIZE;

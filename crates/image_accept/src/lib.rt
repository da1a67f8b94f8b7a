// Every byte string is accepted, with its layout, or refused with the first refusal that applies.
#![tactic(auto)]

ghost use Rattle.std.specs.Prelude.{◌≡◌, ◌&&◌, ◌||◌, eqb, ◌+◌, ◌*◌, ◌<◌, ◌≤◌, ◌^◌, length, Bool, None, IfSome, IfNone, ◌≢◌};
ghost use Rattle.std.specs.Result.{result_ok};
ghost use Rattle.oce_model.specs.Format.{text_tag, block_tag, highest_tag, shortest_image, longest_image};
ghost use Rattle.oce_model.specs.Image.{fields, first, of_tag};
ghost use Rattle.oce_model.specs.declared.Field.{Field};
ghost use Rattle.image_framing.specs.Walk.{end_of, Tests};
ghost use Rattle.image_sieve.specs.Faulty.{at_fault};
ghost use Rattle.oce_model.specs.Refusals.{bad_size, bad_tag, refusal, refusals_from};
ghost use Rattle.image_accept.specs.Layout.{acceptance, refused, refused_by, TabledIfAccepted};
ghost use Rattle.image_accept.specs.Passing.{Begun, listed};
ghost use Rattle.image_accept.specs.Surveyed.{Passed};

use image_contents::{bad_contents, bad_reference};
use image_faults::{bad_length, bad_tag, bad_text, too_many};
use image_framing::{Fields, end_of, first_fault, frame};
use image_sieve::Sieve;
use numbers::{LittleEndian, int_of_bits};
use oce_model::{
    BLOCK_TAG, BOUNDARY_INPUT_TAG, BOUNDARY_OUTPUT_TAG, CONNECTION_TAG, CONNECTOR_TAG,
    EXTERNAL_INPUT_TAG, Field, HEAD_MAX_AT, HEAD_MIN_AT, HEAD_TAG, LONGEST_IMAGE, MOST_BLOCKS,
    MOST_TEXTS, Refusal, SHORTEST_IMAGE, TAG_COUNT, TEXT_TAG,
};

// Where the records of a tag begin, and how many there are.
#[derive(Clone, Copy)]
pub struct Section {
    pub start: usize,
    pub count: usize,
}

impl Section {
    // Where record i stands, by the size that each has.
    pub fn record_at(self, size: usize, i: usize) -> usize
        requires { self.start + size * i ≤ longest_image }
        ensures { (result ≡ self.start + size * i) × (result ≤ longest_image) }
    {
        self.start + size * i
    }
}

// The layout of an accepted image: the records of each tag, and the head's Integer defaults.
#[derive(Clone, Copy)]
pub struct Layout {
    pub texts: Section,
    pub blocks: Section,
    pub connectors: Section,
    pub connections: Section,
    pub externals: Section,
    pub inputs: Section,
    pub outputs: Section,
    pub min: i64,
    pub max: i64,
}

// Room for the offsets of an image's texts and blocks.
#[derive(Drop)]
pub struct Tables {
    pub texts: [usize; MOST_TEXTS],
    pub blocks: [usize; MOST_BLOCKS],
}

impl Tables {
    // Tables with nothing in them yet.
    pub const EMPTY: Tables = Tables {
        texts: [0; MOST_TEXTS],
        blocks: [0; MOST_BLOCKS],
    };
}

// The bytes of an image of a good size.
#[derive(Clone, Copy)]
struct GoodSize<'a> {
    bytes: &'a [u8],
    ghost size: { (shortest_image ≤ length bytes.now) × (length bytes.now ≤ longest_image) },
}

// ---- one pass for an image with nothing at fault

// Notes one more field of its tag. The sections of tags behind the one before begin with it.
fn note(sections: &mut [Section; TAG_COUNT], f: Field)
    requires { (f.prev ≤ f.tag) × (f.tag ≤ highest_tag) × (f.ord < longest_image) }
    ensures { Begun f sections.old sections.new }
{
    for t in f.prev + 1..f.tag + 1 {
        sections[t].start = f.at;
    }
    sections[f.tag].count = f.ord + 1;
}

// Puts the offset of a field with a tag into the tag's table.
fn list(table: &mut [usize], tag: usize, f: Field)
    requires { f.tag ≡ tag → f.ord < length table.old }
    ensures { table.new ≡ listed tag f table.old }
{
    if f.tag == tag {
        table[f.ord] = f.at;
    }
}

// A field is at fault under one of refusals 4 to 8, or is the first of its tag and has a bad one. Where others of
// its tag stand right before it, its tag is good, unless it is one too many.
#[inline(always)]
fn is_refused(sieve: &Sieve) -> bool
    ensures { result ≡ (at_fault sieve.now.texts sieve.now.bytes.now sieve.now.field || (eqb sieve.now.field.ord 0 && bad_tag sieve.now.field)) }
{
    sieve.is_faulty() || sieve.field.ord == 0 && bad_tag(sieve.field)
}

impl GoodSize<'_> {
    // Passes the fields that come next and have a tag, up to the first that is at fault under one of refusals 2 to 8.
    // The tag is a constant, so that each tag has a loop with its own tests alone.
    #[inline(always)]
    fn pass<const TAG: usize>(
        &self,
        fields: &mut Fields,
        sections: &mut [Section; TAG_COUNT],
        tables: &mut Tables,
        end: &mut usize,
    ) -> Option<()>
        requires passed { Passed TAG self.now.bytes.now fields.old end.old sections.old tables.old.texts tables.old.blocks }
        ensures passed { IfSome result (λ u. Passed (TAG + 1) self.now.bytes.now fields.new end.new sections.new tables.new.texts tables.new.blocks) }
        ensures refused { IfNone result (refusal self.now.bytes.now ≢ None) }
    {
        while let Some(f) = fields.next_of(TAG) {
            let sieve = Sieve {
                texts: sections[TEXT_TAG].count,
                bytes: self.bytes,
                field: f,
            };
            if is_refused(&sieve) {
                return None;
            }
            note(sections, f);
            list(&mut tables.texts, TEXT_TAG, f);
            list(&mut tables.blocks, BLOCK_TAG, f);
            *end = end_of(f);
        }
        Some(())
    }

    // Passes the fields of all tags, as tags rise.
    #[inline(always)]
    fn pass_all(
        &self,
        fields: &mut Fields,
        sections: &mut [Section; TAG_COUNT],
        tables: &mut Tables,
        end: &mut usize,
    ) -> Option<()>
        requires passed { Passed HEAD_TAG self.now.bytes.now fields.old end.old sections.old tables.old.texts tables.old.blocks }
        ensures passed { IfSome result (λ u. Passed TAG_COUNT self.now.bytes.now fields.new end.new sections.new tables.new.texts tables.new.blocks) }
        ensures refused { IfNone result (refusal self.now.bytes.now ≢ None) }
    {
        self.pass::<HEAD_TAG>(fields, sections, tables, end)?;
        self.pass::<TEXT_TAG>(fields, sections, tables, end)?;
        self.pass::<BLOCK_TAG>(fields, sections, tables, end)?;
        self.pass::<CONNECTOR_TAG>(fields, sections, tables, end)?;
        self.pass::<CONNECTION_TAG>(fields, sections, tables, end)?;
        self.pass::<EXTERNAL_INPUT_TAG>(fields, sections, tables, end)?;
        self.pass::<BOUNDARY_INPUT_TAG>(fields, sections, tables, end)?;
        self.pass::<BOUNDARY_OUTPUT_TAG>(fields, sections, tables, end)
    }

    // Passes the fields once, up to the first that is at fault under one of refusals 2 to 8: the layout of an image
    // that is accepted, with the offsets of its texts and blocks in the tables.
    fn survey(&self, tables: &mut Tables) -> Option<Layout>
        ensures layout { result ≡ result_ok (acceptance self.now.bytes.now) }
        ensures texts { TabledIfAccepted text_tag self.now.bytes.now tables.new.texts }
        ensures blocks { TabledIfAccepted block_tag self.now.bytes.now tables.new.blocks }
    {
        let s = self.bytes;
        let behind_all = Section {
            start: s.len(),
            count: 0,
        };
        let mut sections = [behind_all; TAG_COUNT];
        let mut fields = Fields::of(s);
        let mut end = 0;
        self.pass_all(&mut fields, &mut sections, tables, &mut end)?;
        // one that is left has a bad tag
        if fields.next().is_some() {
            return None;
        }
        if end < s.len() {
            return None;
        }
        Some(Layout {
            texts: sections[TEXT_TAG],
            blocks: sections[BLOCK_TAG],
            connectors: sections[CONNECTOR_TAG],
            connections: sections[CONNECTION_TAG],
            externals: sections[EXTERNAL_INPUT_TAG],
            inputs: sections[BOUNDARY_INPUT_TAG],
            outputs: sections[BOUNDARY_OUTPUT_TAG],
            min: int_of_bits(u64::read_padded(s, HEAD_MIN_AT)),
            max: int_of_bits(u64::read_padded(s, HEAD_MAX_AT)),
        })
    }
}

// ---- refusals, one after the other

// The refusals' numbers.
const BAD_SIZE: u32 = 1;

const RUNS_PAST: u32 = 2;

const BAD_TAG: u32 = 3;

const BAD_LENGTH: u32 = 4;

const TOO_MANY: u32 = 5;

const BAD_CONTENTS: u32 = 6;

const BAD_TEXT: u32 = 7;

const BAD_REFERENCE: u32 = 8;

// A refusal by its number, with the offset of a field that was found, if one was.
fn refuse(number: u32, found: Option<usize>) -> Result<(), Refusal>
    requires { IfSome found (λ at. at < 2 ^ 32) }
    ensures { result ≡ refused_by number found }
{
    match found {
        None => Ok(()),
        Some(at) => Err(Refusal {
            number,
            offset: at as u32,
        }),
    }
}

impl GoodSize<'_> {
    // The same for the first field that passes a test.
    fn refuse_first<F: Fn(Field) -> bool>(&self, number: u32, test: F) -> Result<(), Refusal>
        requires { (f : Field) → end_of f ≤ length self.now.bytes.now → F.pre test f }
        ensures { (p : Field → Bool) → Tests (F.post test) self.now.bytes.now p → result ≡ refused_by number (first p (fields self.now.bytes.now)) }
    {
        refuse(number, first_fault(self.bytes, test))
    }

    // How many texts there are.
    fn text_count(&self) -> usize
        ensures { result ≡ length (of_tag text_tag (fields self.now.bytes.now)) }
    {
        Fields::of(self.bytes).filter(|f| f.tag == TEXT_TAG).count()
    }

    // Refusals 4 to 8.
    fn refuse_fields(&self) -> Result<(), Refusal>
        ensures { result ≡ refused (refusals_from 5 4 self.now.bytes.now (fields self.now.bytes.now)) }
    {
        let s = self.bytes;
        self.refuse_first(BAD_LENGTH, |f| bad_length(s, f))?;
        self.refuse_first(TOO_MANY, too_many)?;
        self.refuse_first(BAD_CONTENTS, |f| bad_contents(s, f))?;
        self.refuse_first(BAD_TEXT, |f| bad_text(s, f))?;
        let n = self.text_count();
        self.refuse_first(BAD_REFERENCE, |f| bad_reference(n, s, f))
    }

    // Refusals 2 to 8.
    fn refuse(&self) -> Result<(), Refusal>
        ensures { result ≡ refused (refusal self.now.bytes.now) }
    {
        match frame(self.bytes) {
            Err(at) => refuse(RUNS_PAST, Some(at)),
            Ok(bad) => {
                refuse(BAD_TAG, bad)?;
                self.refuse_fields()
            }
        }
    }
}

// ---- the whole

// Refusal 1: an image is shorter or longer than one may be.
fn bad_size(s: &[u8]) -> bool
    ensures { result ≡ bad_size s.now }
{
    !(SHORTEST_IMAGE..=LONGEST_IMAGE).contains(&s.len())
}

// Answers with the layout of an accepted image, and puts the offsets of its texts and blocks into the
// tables; or with the first refusal that applies, and the tables then hold anything. An image with
// nothing at fault takes one pass.
pub fn accept(image: &[u8], tables: &mut Tables) -> Result<Layout, Refusal>
    ensures answer { result ≡ acceptance image.now }
    ensures texts { TabledIfAccepted text_tag image.now tables.new.texts }
    ensures blocks { TabledIfAccepted block_tag image.now tables.new.blocks }
{
    if bad_size(image) {
        return Err(Refusal {
            number: BAD_SIZE,
            offset: 0,
        });
    }
    let image = GoodSize { bytes: image };
    match image.survey(tables) {
        Some(layout) => Ok(layout),
        None => Err(image.refuse().unwrap_err()),
    }
}

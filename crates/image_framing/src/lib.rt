// The fields of an image, one after the other: whether they end with the image, and the first that is at
// fault under a refusal.
#![tactic(auto)]

ghost use Rattle.std.specs.Prelude.{◌≡◌, ◌+◌, ◌<◌, ◌≤◌, length, IfSome, Bool};
ghost use Rattle.numbers.specs.Bytes.{long_range};
ghost use Rattle.oce_model.specs.Format.{leading_bytes};
ghost use Rattle.oce_model.specs.Image.{ord_of, fields, first};
ghost use Rattle.oce_model.specs.declared.Field.{Field};
ghost use Rattle.image_framing.specs.Walk.{leading_at, whole_at, field_of, end_of, Tests, framed};

mod fields;

pub use fields::Fields;
use image_faults::bad_tag;
use numbers::LittleEndian;
use oce_model::{FIELD_LENGTH_AT, Field, LEADING_BYTES};

// ---- one field

// How many fields with the tag t stand right before a field of that tag, where n fields with the tag
// prev do.
fn ord_of(prev: usize, n: usize, t: usize) -> usize
    ensures { result ≡ ord_of prev n t }
{
    if prev == t { n } else { 0 }
}

// What stands at an offset: a tag, the length of the contents, and whether all of it lies in the image. Bytes
// past the end count as 0.
#[derive(Clone, Copy)]
pub struct Leading {
    pub tag: u8,
    pub len: u16,
    pub whole: bool,
}

// Reads what stands at an offset.
pub fn leading_at(s: &[u8], at: usize) -> Leading
    ensures { result ≡ leading_at s.now at }
{
    if s.len() <= at {
        return Leading {
            tag: 0,
            len: 0,
            whole: false,
        };
    }
    let len = u16::read_padded(s, at + FIELD_LENGTH_AT);
    Leading {
        tag: s[at],
        len,
        whole: LEADING_BYTES + usize::from(len) <= s.len() - at,
    }
}

// The same, where all of the field lies in the image.
pub fn whole_at(s: &[u8], at: usize) -> Option<Leading>
    ensures whole { result ≡ whole_at s.now at }
    ensures inside { IfSome result (λ l. at + leading_bytes + l.len ≤ length s.now) }
{
    let l = leading_at(s, at);
    l.whole.then_some(l)
}

// The field at an offset where these leading bytes stand, behind n fields with the tag prev.
fn field_of(l: Leading, at: usize, prev: usize, n: usize) -> Field
    ensures { result ≡ field_of l at prev n }
{
    let tag = usize::from(l.tag);
    Field {
        at,
        tag,
        len: usize::from(l.len),
        prev,
        ord: ord_of(prev, n, tag),
    }
}

// Where a field ends.
pub fn end_of(f: Field) -> usize
    requires { end_of f < long_range }
    ensures { result ≡ end_of f }
{
    f.at + LEADING_BYTES + f.len
}

// ---- framing

// Goes through the fields once, for refusals 2 and 3: the offset of the field that runs past the image's end, or
// else of the first field with a bad tag, if there is one.
pub fn frame(s: &[u8]) -> Result<Option<usize>, usize>
    ensures { result ≡ framed s.now }
{
    let mut bad = None;
    let mut end = 0;
    for f in Fields::of(s) {
        bad = bad.or(bad_tag(f).then_some(f.at));
        end = end_of(f);
    }
    if end < s.len() { Err(end) } else { Ok(bad) }
}

// ---- the first field

// The offset of the first field that passes a test.
pub fn first_fault<F: Fn(Field) -> bool>(s: &[u8], test: F) -> Option<usize>
    requires { (f : Field) → end_of f ≤ length s.now → F.pre test f }
    ensures first { (p : Field → Bool) → Tests (F.post test) s.now p → result ≡ first p (fields s.now) }
    ensures inside { IfSome result (λ at. at < length s.now) }
{
    for f in Fields::of(s) {
        if test(f) {
            return Some(f.at);
        }
    }
    None
}

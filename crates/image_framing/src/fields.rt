// The fields of an image as an iterator.
ghost use Rattle.std.specs.Prelude.{◌≡◌, ◌+◌, ◌≤◌, ◌<◌, ◌∷◌, IfSome, None};
ghost use Rattle.std.specs.Iterator.{YieldsFirst, item_count};
ghost use Rattle.numbers.specs.Bytes.{long_range};
ghost use Rattle.oce_model.specs.Image.{fields};
ghost use Rattle.image_framing.specs.Walk.{NoneFirst, end_of, rest_at};

use crate::{end_of, field_of, whole_at};
use oce_model::Field;
use std::marker::Model;

// The fields that an image has left, up to the first that runs past its end: those from an offset on, behind so many
// fields with the tag prev.
#[derive(Drop)]
pub struct Fields<'a> {
    bytes: &'a [u8],
    at: usize,
    prev: usize,
    before: usize,
}

impl<'a> Model for Fields<'a> {
    ghost use Rattle.std.specs.Prelude.{◌≤◌, List};
    ghost use Rattle.oce_model.specs.declared.Field.{Field};
    ghost use Rattle.image_framing.specs.Walk.{rest_at};

    ghost Value = { List Field };

    ghost view = { λ it. rest_at it.bytes.now it.at it.prev it.before };

    ghost invariant = { λ it. it.before ≤ it.at };
}

impl<'a> Fields<'a> {
    // All fields of an image.
    pub fn of(s: &'a [u8]) -> Fields<'a>
        ensures { result ≡ fields s.now }
    {
        Fields {
            bytes: s,
            at: 0,
            prev: 0,
            before: 0,
        }
    }

    // Those behind one of them.
    fn behind(s: &'a [u8], f: Field) -> Fields<'a>
        requires { (f.ord ≤ f.at) × (end_of f < long_range) }
        ensures { result ≡ rest_at s.now (end_of f) f.tag (f.ord + 1) }
    {
        Fields {
            bytes: s,
            at: end_of(f),
            prev: f.tag,
            before: f.ord + 1,
        }
    }

    // The next field, if it has this tag; one with another tag stays the next.
    pub fn next_of(&mut self, tag: usize) -> Option<Field>
        ensures given { IfSome result (λ f. (self.old ≡ f ∷ self.new) × (f.tag ≡ tag)) }
        ensures left { result ≡ None → (self.new ≡ self.old) × NoneFirst tag self.old }
    {
        let l = whole_at(self.bytes, self.at)?;
        if usize::from(l.tag) != tag {
            return None;
        }
        let field = field_of(l, self.at, self.prev, self.before);
        *self = Fields::behind(self.bytes, field);
        Some(field)
    }
}

impl Iterator for Fields<'_> {
    type Item = Field;

    ghost next_gives = { YieldsFirst (λ rest. rest) };

    ghost remaining = { item_count (λ rest. rest) };

    fn next(&mut self) -> Option<Field> {
        let l = whole_at(self.bytes, self.at)?;
        let f = field_of(l, self.at, self.prev, self.before);
        *self = Fields::behind(self.bytes, f);
        Some(f)
    }
}

// A reading place that carries the image with it, and goes on field by field.
#![tactic(auto)]

ghost use Rattle.std.specs.Prelude.{◌≡◌, ◌-◌, length};
ghost use Rattle.std.specs.Iterator.{at_most};
ghost use Rattle.reader.specs.Reading.{found_at, Reads};

use image_framing::whole_at;
use oce_model::LEADING_BYTES;

// A whole field: where it stands, its tag and the length of its contents.
#[derive(Clone, Copy)]
pub struct Found {
    pub at: usize,
    pub tag: u8,
    pub len: u16,
}

// The field at an offset, if a whole one stands there.
pub fn found_at(image: &[u8], at: usize) -> Option<Found>
    ensures { result ≡ found_at image.now at }
{
    let l = whole_at(image, at)?;
    Some(Found {
        at,
        tag: l.tag,
        len: l.len,
    })
}

// A reader gives the field where it stands, and then stands behind it; it stays where none is.
#[derive(Clone, Copy)]
pub struct Reader<'a> {
    pub image: &'a [u8],
    pub at: usize,
}

impl<'a> Iterator for Reader<'a> {
    type Item = Found;

    ghost next_gives = { Reads };

    ghost remaining = { λ r. at_most (length r.image.now - r.at) };

    #[tactic(auto, using(crate::proofs::Laws::stands))]
    fn next(&mut self) -> Option<Found> {
        let found = found_at(self.image, self.at)?;
        self.at = found.at + LEADING_BYTES + usize::from(found.len);
        Some(found)
    }
}

// An accepted image and the slots that rule 6 fills (FORMAT 15).

ghost use Rattle.std.specs.Prelude.{◌≡◌, ◌≤◌, length, take};
ghost use Rattle.oce_model.specs.Model.{model_of};
ghost use Rattle.unify_slots.specs.Slots.{slot_count};
ghost use Rattle.unify_clusters.specs.Slots.{loaded};

use image_records::Image;
use oce_model::Attrs;
use std::marker::Model;
use unify_slots::{load_slots, slot_count};

// An accepted image and a table of its slots, just as many as there are. Clauses see both.
#[derive(Drop)]
pub struct Slots<'a, 'r, 'i> {
    pub(crate) image: &'r Image<'i, 'i>,
    pub(crate) attrs: &'a mut [Attrs],
}

impl<'a, 'r, 'i> Model for Slots<'a, 'r, 'i> {
    ghost use Rattle.std.specs.Prelude.{◌≡◌, length};
    ghost use Rattle.oce_model.specs.Model.{model_of};
    ghost use Rattle.unify_slots.specs.Slots.{slot_count};
    ghost use Rattle.unify_clusters.specs.Slots.{SlotTable};

    ghost Value = { SlotTable };

    ghost view = { λ s. record { image = s.image.now; attrs = s.attrs.now } };

    ghost invariant = { λ s. length s.attrs.now ≡ slot_count (model_of s.image.now) };
}

impl<'a, 'r, 'i> Slots<'a, 'r, 'i> {
    // A table for the slots of an image, cut from one for at least so many.
    pub fn of(image: &'r Image<'i, 'i>, room: &'a mut [Attrs]) -> Slots<'a, 'r, 'i>
        requires { slot_count (model_of image.now) ≤ length room.old }
        ensures image { result.image ≡ image.now }
        ensures attrs { result.attrs ≡ take (slot_count (model_of image.now)) room.old }
    {
        let n = slot_count(image);
        Slots {
            image,
            attrs: &mut room[..n],
        }
    }

    // The image.
    pub fn image(&self) -> &'r Image<'i, 'i>
        ensures { result.now ≡ self.now.image }
    {
        self.image
    }

    // The slots by their numbers.
    pub fn attrs(&self) -> &[Attrs]
        ensures is { result.now ≡ self.now.attrs }
        ensures all { length self.now.attrs ≡ slot_count (model_of self.now.image) }
    {
        self.attrs
    }

    // Reads all slots of the image.
    pub fn load(&mut self)
        ensures { self.new ≡ loaded self.old.image }
    {
        load_slots(self.image, self.attrs);
    }
}

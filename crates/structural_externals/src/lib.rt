// The external inputs of an image, kept so that an id is looked up in few steps: an id below the number of marks
// has one of its own, the others stand in ascending order.
#![tactic(auto)]

ghost use Rattle.std.specs.Prelude.{◌≡◌, ◌≤◌, length};
ghost use Rattle.oce_model.specs.Model.{model_of};
ghost use Rattle.structural.specs.Degrees.{external};

use image_records::Image;
use sorting::{is_among, sort};
use std::marker::Model;

// An image, and its external inputs where they are looked up in few steps. Clauses see the image.
#[derive(Drop)]
pub struct Externals<'a, 'r, 'i> {
    image: &'r Image<'i, 'i>,
    marks: &'a [bool],
    others: &'a [u32],
}

impl<'a, 'r, 'i> Model for Externals<'a, 'r, 'i> {
    ghost use Rattle.std.specs.Prelude.{ℕ, List};
    ghost use Rattle.oce_model.specs.Model.{model_of};
    ghost use Rattle.structural_externals.specs.Columns.{Split};

    ghost Value = { List ℕ };

    ghost view = { λ e. e.image.now };

    ghost invariant = { λ e. Split (model_of e.image.now) e.marks.now e.others.now };
}

impl<'a, 'r, 'i> Externals<'a, 'r, 'i> {
    // Finds the external inputs of an image: each id below the number of marks has one, and there is room for all
    // others.
    pub fn list(
        image: &'r Image<'i, 'i>,
        marks: &'a mut [bool],
        others: &'a mut [u32],
    ) -> Externals<'a, 'r, 'i>
        requires { length (model_of image.now).external_inputs ≤ length others.old }
        ensures { result ≡ image.now }
    {
        marks.fill(false);
        let mut n = 0;
        for k in 0..image.external_input_count() {
            let id = image.external_input(k).0;
            if (id as usize) < marks.len() {
                marks[id as usize] = true;
            } else {
                others[n] = id;
                n += 1;
            }
        }
        sort(&mut others[..n]);
        Externals {
            image,
            marks,
            others: &others[..n],
        }
    }

    // The image.
    pub fn image(&self) -> &'r Image<'i, 'i>
        ensures { result.now ≡ self.now }
    {
        self.image
    }

    // An id is that of an external input.
    pub fn contains(&self, id: usize) -> bool
        ensures { result ≡ external (model_of self.now) id }
    {
        if id < self.marks.len() {
            self.marks[id]
        } else {
            is_among(self.others, id)
        }
    }
}

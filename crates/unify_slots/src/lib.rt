// The slots of rule 6 (FORMAT 15), by value: what one declares for a detail, how one takes a value, and those of an
// accepted image.
#![tactic(auto)]

ghost use Rattle.std.specs.Prelude.{◌≡◌, ◌+◌, ◌≤◌, length, set, take};
ghost use Rattle.oce_model.specs.Format.{most_connectors, most_boundary_outputs};
ghost use Rattle.oce_model.specs.Model.{model_of};
ghost use Rattle.unify.specs.Slots.{slots_of, slot, value, put};
ghost use Rattle.unify_slots.specs.Slots.{slot_count};

use image_records::Image;
use oce_model::{Attrs, ConnectorId, NUMBER_COUNT};
use unify::Detail;

// What attributes declare for a detail.
pub fn declared(a: &Attrs, detail: Detail) -> Option<u64>
    ensures { result ≡ value detail a.now }
{
    let p = detail.bit();
    (a.has_kind(detail.kind()) && a.is_marked(p)).then_some(a.number(p))
}

// Attributes of the kind that declare nothing for a detail take v.
pub fn put(a: &mut Attrs, detail: Detail, v: u64)
    ensures { a.new ≡ put detail v a.old }
{
    let p = detail.bit();
    if a.has_kind(detail.kind()) && !a.is_marked(p) {
        a.marks |= 1 << p;
        a.nums[p] = v;
    }
}

// What slot j declares for a detail. A number that no slot has declares nothing.
pub fn declared_at(slots: &[Attrs], j: usize, detail: Detail) -> Option<u64>
    ensures { result ≡ value detail (slot slots.now j) }
{
    declared(slots.get(j)?, detail)
}

// Slot j takes v, if there is one of the kind that declares nothing for a detail.
pub fn put_at(slots: &mut [Attrs], j: usize, detail: Detail, v: u64)
    ensures { slots.new ≡ set slots.old j (put detail v (slot slots.old j)) }
{
    if j < slots.len() {
        put(&mut slots[j], detail, v);
    }
}

// A slot before it is read.
pub const NO_ATTRS: Attrs = Attrs {
    kind: 0,
    marks: 0,
    nums: [0; NUMBER_COUNT],
};

// How many slots an accepted image has.
pub fn slot_count(image: &Image) -> usize
    ensures { (result ≡ slot_count (model_of image.now)) × (result ≤ most_connectors + most_boundary_outputs) }
{
    image.connector_count() + image.boundary_output_count()
}

// All slots of an accepted image, in a table of just as many.
fn read_slots(image: &Image, slots: &mut [Attrs])
    requires { length slots.old ≡ slot_count (model_of image.now) }
    ensures { slots.new ≡ slots_of (model_of image.now) }
{
    let (connectors, outputs) = slots.split_at_mut(image.connector_count());
    for (j, slot) in connectors.iter_mut().enumerate() {
        *slot = image.connector_attrs(ConnectorId(j as u32));
    }
    for (i, slot) in outputs.iter_mut().enumerate() {
        *slot = image.boundary_output_attrs(i);
    }
}

// The same in a table with room for them.
pub fn load_slots(image: &Image, slots: &mut [Attrs])
    requires { slot_count (model_of image.now) ≤ length slots.old }
    ensures { take (slot_count (model_of image.now)) slots.new ≡ slots_of (model_of image.now) }
{
    let n = slot_count(image);
    read_slots(image, &mut slots[..n]);
}

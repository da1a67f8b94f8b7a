// The members of the groups of rule 5.4, by one numbering: the connectors, and behind them the boundary
// inputs.
#![tactic(auto)]

ghost use Rattle.std.specs.Prelude.{◌≡◌, ◌+◌, ◌<◌, ◌≤◌};
ghost use Rattle.base.specs.Lists.{below};
ghost use Rattle.oce_model.specs.Format.{most_connectors, most_boundary_inputs};
ghost use Rattle.oce_model.specs.Model.{model_of, connector_count};
ghost use Rattle.crossed_bounds.specs.CrossedBounds.{member_iri, member_attrs, member_external};
ghost use Rattle.crossed_members.specs.Members.{member_count, is_member, member_range, member_joins};

use crossed_bounds::Range;
use crossed_ranges::range_of;
use image_records::Image;
use oce_model::{Attrs, ConnectorId, NO_TEXT};
use structural_externals::Externals;

// How many there are.
pub fn member_count(image: &Image) -> usize
    ensures { (result ≡ member_count (model_of image.now)) × (result ≤ most_connectors + most_boundary_inputs) }
{
    image.connector_count() + image.boundary_input_count()
}

// ---- one member

// The text number of its iri.
#[tactic(auto, unfolding(crossed_bounds::specs::CrossedBounds::member_iri, image_records::specs::Records::connector_read))]
pub fn member_iri(image: &Image, x: usize) -> u16
    requires { is_member (model_of image.now) x }
    ensures { result ≡ member_iri (model_of image.now) x }
{
    let n = image.connector_count();
    if x < n {
        image.connector(ConnectorId(x as u32)).iri
    } else {
        image.boundary_input_iri(x - n)
    }
}

// Its attributes.
#[tactic(auto, unfolding(crossed_bounds::specs::CrossedBounds::member_attrs))]
fn member_attrs(image: &Image, x: usize) -> Attrs
    requires { is_member (model_of image.now) x }
    ensures { result ≡ member_attrs (model_of image.now) x }
{
    let n = image.connector_count();
    if x < n {
        image.connector_attrs(ConnectorId(x as u32))
    } else {
        image.boundary_input_attrs(x - n)
    }
}

// The range of its attributes.
pub fn member_range(image: &Image, x: usize) -> Range
    requires { is_member (model_of image.now) x }
    ensures { result ≡ member_range (model_of image.now) x }
{
    range_of(image, &member_attrs(image, x))
}

// It is a connector whose id is external.
#[tactic(auto, unfolding(crossed_bounds::specs::CrossedBounds::member_external, image_records::specs::Records::connector_read))]
pub fn member_external(externals: &Externals, x: usize) -> bool
    ensures { result ≡ member_external (model_of externals.now) x }
{
    let image = externals.image();
    x < image.connector_count()
        && externals.contains(image.connector(ConnectorId(x as u32)).id.0 as usize)
}

// It takes part in the grouping: an In with an iri, or a boundary input.
#[tactic(auto, unfolding(crate::specs::Members::member_joins, crossed_bounds::specs::CrossedBounds::joins, image_records::specs::Records::connector_read), using(oce_model::proofs::Records::inwards_is))]
pub fn member_joins(image: &Image, x: usize) -> bool
    ensures { result ≡ member_joins (model_of image.now) x }
{
    image.connector_count() <= x
        || {
            let c = image.connector(ConnectorId(x as u32));
            c.dir.is_in() && c.iri != NO_TEXT
        }
}

// ---- all members

// A member is external.
pub fn some_external(externals: &Externals) -> bool
    ensures { result ≡ below (connector_count (model_of externals.now)) (member_external (model_of externals.now)) }
{
    (0..externals.image().connector_count()).any(|x| member_external(externals, x))
}

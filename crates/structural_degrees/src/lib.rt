// In-degrees of all connectors, the Rust's `in_degrees`: the connections are read once, lent a portion at
// a time as a list of pairs, and counted in one pass.
#![tactic(auto)]

ghost use Rattle.std.specs.Prelude.{◌≡◌, ◌≤◌, ◌+◌, ◌<◌, length, min};
ghost use Rattle.structural_degrees.specs.Counted.{portion, counted, Spare};
ghost use Rattle.oce_model.specs.Format.{most_connections};
ghost use Rattle.oce_model.specs.Model.{model_of, connection_count, connector_count};
ghost use Rattle.structural.specs.Degrees.{degree};
ghost use Rattle.structural_degrees.specs.Columns.{Reads, Counts, Degrees};

use image_records::Image;
use oce_model::{Connection, ConnectorId};
use std::marker::Model;

// So many connections are lent at once.
pub const PORTION: usize = 64;

// ---- a list of connections

// Adds to each place of `degrees` how many connections lead to it, in one pass. A `to` past the end counts nowhere.
pub fn add_degrees(connections: &[Connection], degrees: &mut [u32])
    requires { Spare degrees.old (length connections.now) }
    ensures { degrees.new ≡ counted degrees.old connections.now (length connections.now) }
{
    for c in connections {
        let to = c.to.0 as usize;
        if to < degrees.len() {
            degrees[to] += 1;
        }
    }
}

// ---- the connections of an image

// The connections from number `first` on, in their order, in each place of the list.
fn read_connections(image: &Image, first: usize, list: &mut [Connection])
    requires { (length list.old ≤ portion) × (first + length list.old ≤ connection_count (model_of image.now)) × (first + length list.old ≤ most_connections) }
    ensures { Reads (model_of image.now) first (length list.new) list.new }
{
    for (k, c) in list.iter_mut().enumerate() {
        *c = image.connection(first + k);
    }
}

// Counts the portion from number `first` on.
fn count_portion(image: &Image, first: usize, degrees: &mut [u32])
    requires { (first < connection_count (model_of image.now)) × Counts (model_of image.now) first degrees.old }
    ensures { Counts (model_of image.now) (min (first + portion) (connection_count (model_of image.now))) degrees.new × (length degrees.new ≡ length degrees.old) }
{
    let mut list = [Connection {
        from: ConnectorId(0),
        to: ConnectorId(0),
    }; PORTION];
    let list = &mut list[..PORTION.min(image.connection_count() - first)];
    read_connections(image, first, list);
    add_degrees(list, degrees);
}

// How many connections lead to each connector.
fn in_degrees(image: &Image, degrees: &mut [u32])
    requires { connector_count (model_of image.now) ≤ length degrees.old }
    ensures { Degrees (model_of image.now) degrees.new × (length degrees.new ≡ length degrees.old) }
{
    degrees.fill(0);
    for first in (0..image.connection_count()).step_by(PORTION) {
        count_portion(image, first, degrees);
    }
}

// ---- an image with its in-degrees

// An image, and the in-degrees of its connectors by their numbers. Clauses see the image.
#[derive(Drop)]
pub struct InDegrees<'a, 'r, 'i> {
    image: &'r Image<'i, 'i>,
    degrees: &'a [u32],
}

impl<'a, 'r, 'i> Model for InDegrees<'a, 'r, 'i> {
    ghost use Rattle.std.specs.Prelude.{ℕ, List, length, ◌≡◌};
    ghost use Rattle.oce_model.specs.Model.{model_of, connector_count};
    ghost use Rattle.structural_degrees.specs.Columns.{Degrees};

    ghost Value = { List ℕ };

    ghost view = { λ d. d.image.now };

    ghost invariant = { λ d. (length d.degrees.now ≡ connector_count (model_of d.image.now)) × Degrees (model_of d.image.now) d.degrees.now };
}

impl<'a, 'r, 'i> InDegrees<'a, 'r, 'i> {
    // Counts the connections of an image in a column.
    pub fn count(image: &'r Image<'i, 'i>, column: &'a mut [u32]) -> InDegrees<'a, 'r, 'i>
        requires { connector_count (model_of image.now) ≤ length column.old }
        ensures { result ≡ image.now }
    {
        in_degrees(image, column);
        InDegrees {
            image,
            degrees: &column[..image.connector_count()],
        }
    }

    // The image.
    pub fn image(&self) -> &'r Image<'i, 'i>
        ensures { result.now ≡ self.now }
    {
        self.image
    }

    // How many connections lead to an id: none where that is no connector's number.
    pub fn degree(&self, id: ConnectorId) -> u32
        ensures { result ≡ degree (model_of self.now) id.0 }
    {
        self.degrees.get(id.0 as usize).copied().unwrap_or(0)
    }
}

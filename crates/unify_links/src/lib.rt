// The clusters of rule 6 (FORMAT 15), from lists of links: the connections, and behind them the boundary outputs.
#![tactic(auto)]

ghost use Rattle.std.specs.Prelude.{◌≡◌, ◌+◌, ◌≤◌, ◌<◌, length};
ghost use Rattle.oce_model.specs.Format.{most_connections, most_boundary_outputs};
ghost use Rattle.oce_model.specs.Model.{model_of, connection, boundary_output, connector_count, connection_count, boundary_output_count};
ghost use Rattle.unify.specs.Clusters.{is_root};
ghost use Rattle.unify_links.specs.Links.{link_count, connection_root, output_root, root_of, target_of, Empty, Linked, Gathered};

use image_records::Image;
use oce_model::ConnectorId;
use std::marker::Model;
use structural_degrees::InDegrees;

// How many links there are.
pub fn link_count(image: &Image) -> usize
    ensures counted { result ≡ link_count (model_of image.now) }
    ensures few { result ≤ most_connections + most_boundary_outputs }
{
    image.connection_count() + image.boundary_output_count()
}

// ---- roots and targets

// The root of connection k.
fn connection_root(degrees: &InDegrees, k: usize) -> Option<ConnectorId>
    requires { k < connection_count (model_of degrees.now) }
    ensures { result ≡ connection_root (model_of degrees.now) (connection (model_of degrees.now) k) }
{
    let image = degrees.image();
    let n = image.connector_count();
    let c = image.connection(k);
    let drives = (c.from.0 as usize) < n && (c.to.0 as usize) < n && degrees.degree(c.to) == 1;
    drives.then_some(c.from)
}

// The root of boundary output i.
fn output_root(image: &Image, i: usize) -> Option<ConnectorId>
    requires { i < boundary_output_count (model_of image.now) }
    ensures { result ≡ output_root (model_of image.now) (boundary_output (model_of image.now) i) }
{
    let source = image.boundary_output(i).source;
    if image.connector_count() <= source.0 as usize {
        return None;
    }
    let c = image.connector(source);
    (!c.dir.is_in() && image.boundary_output_attrs(i).has_kind(c.value_type)).then_some(source)
}

// The root of link k.
fn root_of(degrees: &InDegrees, k: usize) -> Option<ConnectorId>
    requires { k < link_count (model_of degrees.now) }
    ensures { result ≡ root_of (model_of degrees.now) k }
{
    let image = degrees.image();
    let connections = image.connection_count();
    if k < connections {
        connection_root(degrees, k)
    } else {
        output_root(image, k - connections)
    }
}

// The slot that link k leads to.
fn target_of(image: &Image, k: u16) -> usize
    requires { k < link_count (model_of image.now) }
    ensures { result ≡ target_of (model_of image.now) k }
{
    let k = k as usize;
    let connections = image.connection_count();
    if k < connections {
        image.connection(k).to.0 as usize
    } else {
        image.connector_count() + (k - connections)
    }
}

// ---- the lists: `head` has the first link of each root, `next` the one behind each link

// Link k comes to the front of its root's list, if it has a root. The lists have all links behind it.
fn link(degrees: &InDegrees, k: u16, head: &mut [Option<u16>], next: &mut [Option<u16>])
    requires { (k < link_count (model_of degrees.now)) × Linked (model_of degrees.now) (k + 1) head.old next.old }
    ensures { Linked (model_of degrees.now) k head.new next.new }
{
    if let Some(root) = root_of(degrees, k as usize) {
        next[k as usize] = head[root.0 as usize].replace(k);
    }
}

// The lists of all links, from the last to the first.
fn link_all(degrees: &InDegrees, head: &mut [Option<u16>], next: &mut [Option<u16>])
    requires { Empty (model_of degrees.now) head.old
        × (connector_count (model_of degrees.now) ≤ length head.old) × (link_count (model_of degrees.now) ≤ length next.old) }
    ensures { Linked (model_of degrees.now) 0 head.new next.new }
{
    for k in (0..link_count(degrees.image())).rev() {
        link(degrees, k as u16, head, next);
    }
}

// ---- an image with its links

// An image and the links of each root in lists, in fixed memory. Clauses see the image.
#[derive(Drop)]
pub struct Links<'a, 'r, 'i> {
    image: &'r Image<'i, 'i>,
    head: &'a [Option<u16>],
    next: &'a [Option<u16>],
}

impl<'a, 'r, 'i> Model for Links<'a, 'r, 'i> {
    ghost use Rattle.std.specs.Prelude.{ℕ, List};
    ghost use Rattle.oce_model.specs.Model.{model_of};
    ghost use Rattle.unify_links.specs.Links.{Linked};

    ghost Value = { List ℕ };

    ghost view = { λ l. l.image.now };

    ghost invariant = { λ l. Linked (model_of l.image.now) 0 l.head.now l.next.now };
}

impl<'a, 'r, 'i> Links<'a, 'r, 'i> {
    // The lists of all links of an image. `head` holds no link at first.
    pub fn list(
        degrees: &InDegrees<'_, 'r, 'i>,
        head: &'a mut [Option<u16>],
        next: &'a mut [Option<u16>],
    ) -> Links<'a, 'r, 'i>
        requires { Empty (model_of degrees.now) head.old
            × (connector_count (model_of degrees.now) ≤ length head.old) × (link_count (model_of degrees.now) ≤ length next.old) }
        ensures { result ≡ degrees.now }
    {
        link_all(degrees, head, next);
        Links {
            image: degrees.image(),
            head,
            next,
        }
    }

    // The image.
    pub fn image(&self) -> &'r Image<'i, 'i>
        ensures { result.now ≡ self.now }
    {
        self.image
    }

    // A connector is a root: its list has a link.
    pub fn is_root(&self, root: ConnectorId) -> bool
        requires { root.0 < connector_count (model_of self.now) }
        ensures { result ≡ is_root (model_of self.now) root.0 }
    {
        self.head[root.0 as usize].is_some()
    }

    // The cluster of a root: the root, then the slots that its links lead to, in the order of its list.
    pub fn gather<'m>(&self, root: ConnectorId, members: &'m mut [usize]) -> &'m [usize]
        requires { (root.0 < connector_count (model_of self.now)) × (link_count (model_of self.now) < length members.old) }
        ensures { Gathered (model_of self.now) root.0 result.now }
    {
        members[0] = root.0 as usize;
        let mut c = 1;
        let mut link = self.head[root.0 as usize];
        while let Some(k) = link {
            members[c] = target_of(self.image, k);
            c += 1;
            link = self.next[k as usize];
        }
        &members[..c]
    }
}

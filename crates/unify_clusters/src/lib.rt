// Rule 6 (FORMAT 16), the Rust's `unify_clusters`: the slots of an image read, all roots in turn, and where
// the list then holds no error, the test of every root's range.
#![tactic(auto)]

ghost use Rattle.std.specs.Prelude.{◌≡◌, ◌+◌, ◌*◌, ◌<◌, length};
ghost use Rattle.oce_model.specs.Model.{model_of, connector_count};
ghost use Rattle.oce_diag.specs.Reporting.{Room, Puts};
ghost use Rattle.unify.specs.Unify.{filled_to, root_faults, clusters_faults};
ghost use Rattle.unify_links.specs.Links.{link_count};
ghost use Rattle.unify_cluster.specs.Clusters.{most_cluster_faults};
ghost use Rattle.unify_clusters.specs.Slots.{loaded, filled_before, filled};
ghost use Rattle.unify_clusters.specs.Unified.{most_roots_faults, most_unified_faults, Roomy, Unified};

mod slots;

use oce_diag::Report;
use oce_model::{ConnectorId, MOST_BOUNDARY_OUTPUTS, MOST_CONNECTIONS, MOST_CONNECTORS};
pub use slots::Slots;
use structural_degrees::InDegrees;
use unify_cluster::cluster;
use unify_links::{Links, link_count};
use unify_propagated::check_propagated_clusters;

// ---- roots

// One connector: if it is a root, its members gathered, its details settled.
fn unify_root(
    links: &Links,
    slots: &mut Slots,
    members: &mut [usize],
    root: ConnectorId,
    report: &mut Report,
)
    requires { (slots.old ≡ filled_before links.now root.0) × (link_count (model_of links.now) < length members.old)
        × (root.0 < connector_count (model_of links.now)) × Room most_cluster_faults report.old }
    ensures filled { slots.new ≡ filled_before links.now (root.0 + 1) }
    ensures reported { Puts most_cluster_faults (root_faults (model_of links.now) root.0 (filled_to (model_of links.now) root.0)) report.old report.new }
{
    let gathered = links.gather(root, members);
    if 1 < gathered.len() {
        cluster(slots.image, slots.attrs, gathered, root, report);
    }
}

// All roots in turn, each seeing what the ones before it filled.
fn unify_roots(links: &Links, slots: &mut Slots, members: &mut [usize], report: &mut Report)
    requires { (slots.old ≡ loaded links.now) × (link_count (model_of links.now) < length members.old) × Room most_roots_faults report.old }
    ensures filled { slots.new ≡ filled links.now }
    ensures reported { Puts (most_cluster_faults * connector_count (model_of links.now)) (clusters_faults (model_of links.now)) report.old report.new }
{
    for r in 0..links.image().connector_count() as u32 {
        unify_root(links, slots, members, ConnectorId(r), report);
    }
}

// ---- the arrays, and the whole rule

// The most links that an accepted image has.
const MOST_LINKS: usize = MOST_CONNECTIONS + MOST_BOUNDARY_OUTPUTS;

// A root and the slots that its links lead to.
const MOST_MEMBERS: usize = MOST_LINKS + 1;

// So many have shorter arrays, which are sooner cleared.
const FEW_CONNECTORS: usize = 192;

const FEW_LINKS: usize = 256;

const FEW_MEMBERS: usize = FEW_LINKS + 1;

// The links in lists, all roots in turn and the test of their ranges, in arrays that have room for them.
fn linked_roots<const CONNECTORS: usize, const LINKS: usize, const MEMBERS: usize>(
    degrees: &InDegrees,
    slots: &mut Slots,
    report: &mut Report,
)
    requires { (slots.old ≡ loaded degrees.now) × Room most_unified_faults report.old
        × Roomy (model_of degrees.now) CONNECTORS LINKS MEMBERS }
    ensures { Unified degrees.now slots.new report.old report.new }
{
    let mut head = [None; CONNECTORS];
    let mut next = [None; LINKS];
    let mut members = [0; MEMBERS];
    let links = Links::list(degrees, &mut head, &mut next);
    unify_roots(&links, slots, &mut members, report);
    if report.counted.errors == 0 {
        check_propagated_clusters(&links, slots.attrs(), report);
    }
}

// All of rule 6, over the slots of the image whose in-degrees are given.
pub fn unify_clusters(degrees: &InDegrees, slots: &mut Slots, report: &mut Report)
    requires { (slots.old.image ≡ degrees.now) × Room most_unified_faults report.old }
    ensures { Unified degrees.now slots.new report.old report.new }
{
    let image = degrees.image();
    slots.load();
    let links = link_count(image);
    if image.connector_count() <= FEW_CONNECTORS && links <= FEW_LINKS {
        linked_roots::<FEW_CONNECTORS, FEW_LINKS, FEW_MEMBERS>(degrees, slots, report);
    } else {
        linked_roots::<MOST_CONNECTORS, MOST_LINKS, MOST_MEMBERS>(degrees, slots, report);
    }
}

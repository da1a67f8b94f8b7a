// One cluster of rule 6: what 6.1 to 6.7 report, and what the first six of them fill (FORMAT 16).
#![tactic(auto)]

ghost use Rattle.std.specs.Prelude.{◌≡◌, ◌<◌};
ghost use Rattle.oce_model.specs.Model.{model_of, connector, connector_count};
ghost use Rattle.oce_diag.specs.Diagnostics.{subject_of};
ghost use Rattle.oce_diag.specs.Reporting.{Room, Puts};
ghost use Rattle.unify.specs.Details.{unified_details};
ghost use Rattle.unify.specs.Unify.{conflict_code, fill, fill_faults, display_faults, fill_details, details_faults, cluster_faults};
ghost use Rattle.unify_cluster.specs.Clusters.{unified_count, most_cluster_faults, Stands};

use image_records::Image;
use oce_diag::{DiagCode, Report, Subject, error, subject_of, warning};
use oce_model::{Attrs, ConnectorId};
use unify::{Detail, UNIFIED};
use unify_seen::{Seen, seen_in};
use unify_settle::{decide_and_apply, diverges};

const RULE: u8 = 6;

// The Rust's `subject_of`, of a root.
pub fn subject(image: &Image, root: ConnectorId) -> Subject
    requires { root.0 < connector_count (model_of image.now) }
    ensures { result ≡ subject_of (connector (model_of image.now) root.0) }
{
    let c = image.connector(root);
    subject_of(c.iri, c.id)
}

// The Rust's `RealAttr::conflict_code`: a text's conflict or an end's.
fn conflict_code(detail: Detail) -> DiagCode
    ensures { result ≡ conflict_code detail }
{
    if detail.is_text() {
        DiagCode::UnitQuantityMismatch
    } else {
        DiagCode::BoundMismatch
    }
}

// The Rust's `ClusterMembers`: a root of an image and its members, the root first, with what they declare.
#[derive(Clone, Copy)]
struct ClusterMembers<'a, 'i> {
    image: &'a Image<'i, 'i>,
    root: ConnectorId,
    members: &'a [usize],
    seen: Seen,
}

impl ClusterMembers<'_, '_> {
    // The Rust's `unify_real` and `unify_int`: a detail, if any member declares it. The members are filled, or
    // there is an error.
    fn unify_detail(&self, slots: &mut [Attrs], detail: Detail, report: &mut Report)
        requires { Stands slots.old self.now × Room 1 report.old }
        ensures filled { slots.new ≡ fill (model_of self.now.image.now).texts self.now.members.now detail slots.old }
        ensures reported { Puts 1 (fill_faults (model_of self.now.image.now) self.now.root.0 self.now.members.now detail slots.old) report.old report.new }
    {
        if self.seen.shows(detail)
            && decide_and_apply(self.image, slots, self.members, detail).is_err()
        {
            report.put(error(
                conflict_code(detail),
                RULE,
                detail.number(),
                subject(self.image, self.root),
                self.root.0,
            ));
        }
    }

    // 6.1 to 6.6.
    fn unify_details(&self, slots: &mut [Attrs], report: &mut Report)
        requires { Stands slots.old self.now × Room unified_count report.old }
        ensures filled { slots.new ≡ fill_details (model_of self.now.image.now).texts self.now.members.now unified_details slots.old }
        ensures reported { Puts unified_count (details_faults (model_of self.now.image.now) self.now.root.0 self.now.members.now unified_details slots.old) report.old report.new }
    {
        for detail in UNIFIED {
            self.unify_detail(slots, detail, report);
        }
    }

    // 6.7, if any member declares it: a warning where display units differ.
    fn warn_display_unit_divergence(&self, slots: &[Attrs], report: &mut Report)
        requires { Stands slots.now self.now × Room 1 report.old }
        ensures { Puts 1 (display_faults (model_of self.now.image.now) self.now.root.0 self.now.members.now slots.now) report.old report.new }
    {
        let detail = Detail::DisplayUnit;
        if self.seen.shows(detail) && diverges(self.image, slots, self.members, detail) {
            report.put(warning(
                DiagCode::DisplayUnitDivergence,
                RULE,
                detail.number(),
                subject(self.image, self.root),
                self.root.0,
            ));
        }
    }
}

// A cluster: nothing is to be done where nothing is declared.
pub fn cluster(
    image: &Image,
    slots: &mut [Attrs],
    members: &[usize],
    root: ConnectorId,
    report: &mut Report,
)
    requires { (root.0 < connector_count (model_of image.now)) × Room most_cluster_faults report.old }
    ensures filled { slots.new ≡ fill_details (model_of image.now).texts members.now unified_details slots.old }
    ensures reported { Puts most_cluster_faults (cluster_faults (model_of image.now) root.0 members.now slots.old) report.old report.new }
{
    let seen = seen_in(slots, members);
    if !seen.is_empty() {
        let cluster = ClusterMembers {
            image,
            root,
            members,
            seen,
        };
        cluster.unify_details(slots, report);
        cluster.warn_display_unit_divergence(slots, report);
    }
}

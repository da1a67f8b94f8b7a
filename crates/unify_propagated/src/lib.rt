// 6.8: roots whose range is crossed after all roots are filled (FORMAT 16).
#![tactic(auto)]

ghost use Rattle.std.specs.Prelude.{◌≡◌, ◌≤◌, ◌<◌, length};
ghost use Rattle.oce_model.specs.Format.{most_connectors};
ghost use Rattle.oce_model.specs.Model.{model_of, connector_count};
ghost use Rattle.oce_diag.specs.Reporting.{Room, Puts};
ghost use Rattle.unify.specs.Unify.{filled_slots, propagated_faults, propagated};

use crossed_ranges::{is_crossed, range_of};
use oce_diag::{DiagCode, Report, error};
use oce_model::{Attrs, ConnectorId};
use unify_cluster::subject;
use unify_links::Links;

const RULE: u8 = 6;

const CROSSED_DETAIL: u8 = 8;

// The test of one connector, if it is a root.
fn check_propagated_cluster(links: &Links, slots: &[Attrs], root: ConnectorId, report: &mut Report)
    requires { (root.0 < connector_count (model_of links.now)) × (connector_count (model_of links.now) ≤ length slots.now) × Room 1 report.old }
    ensures { Puts 1 (propagated_faults (model_of links.now) slots.now root.0) report.old report.new }
{
    let image = links.image();
    if links.is_root(root) && is_crossed(range_of(image, &slots[root.0 as usize])) {
        report.put(error(
            DiagCode::CrossedBounds,
            RULE,
            CROSSED_DETAIL,
            subject(image, root),
            root.0,
        ));
    }
}

// All roots in turn, over the slots as rule 6 has filled them. The caller runs it where the whole list
// holds no error.
pub fn check_propagated_clusters(links: &Links, slots: &[Attrs], report: &mut Report)
    requires { (slots.now ≡ filled_slots (model_of links.now)) × Room most_connectors report.old }
    ensures { Puts (connector_count (model_of links.now)) (propagated (model_of links.now)) report.old report.new }
{
    for r in 0..links.image().connector_count() as u32 {
        check_propagated_cluster(links, slots, ConnectorId(r), report);
    }
}

// All rules in their order (FORMAT 7), over one report.
#![tactic(auto)]

ghost use Rattle.std.specs.Prelude.{◌≡◌, ◌≤◌};
ghost use Rattle.oce_model.specs.Model.{model_of, connector_count};
ghost use Rattle.oce_model.specs.Format.{most_connectors};
ghost use Rattle.oce_diag.specs.Reporting.{Room, Puts};
ghost use Rattle.outcome.specs.Report.{rules_before6};
ghost use Rattle.rules.specs.Ran.{none, Roomy, Ran, most_before6};

use crossed_records::check_crossed_bounds;
use oce_diag::{Counted, Report};
use oce_model::{MOST_CONNECTORS, MOST_EXTERNAL_INPUTS};
use structural_arena_ids::check_arena_ids;
use structural_assignment::{Drivers, check_single_assignment};
use structural_wiring::{check_boundary_outputs, check_connections};
use unify_clusters::{Slots, unify_clusters};

// So many connectors, and so many external inputs, have shorter columns, which are sooner cleared.
const FEW_RECORDS: usize = 192;

// The rules before rule 6.
fn rules_before_6(drivers: &Drivers, report: &mut Report)
    requires { Room most_before6 report.old }
    ensures { Puts most_before6 (rules_before6 (model_of drivers.now)) report.old report.new }
{
    let image = drivers.image();
    check_arena_ids(image, report);
    check_boundary_outputs(image, report);
    check_single_assignment(drivers, report);
    check_connections(image, report);
    check_crossed_bounds(drivers.externals(), report);
}

// All rules, over a report with nothing counted.
fn all_rules(drivers: &Drivers, slots: &mut Slots, report: &mut Report)
    requires one { slots.old.image ≡ drivers.now }
    requires start { (report.old.counted ≡ none) × (connector_count (model_of drivers.now) ≤ most_connectors) }
    ensures ran { Ran drivers.now slots.new report.old.bytes.now report.new.bytes.now report.new.counted }
    ensures same { report.new.bytes.ghost_name ≡ report.old.bytes.ghost_name }
{
    rules_before_6(drivers, report);
    unify_clusters(drivers.degrees(), slots, report);
}

// The same over columns for so many connectors and so many external inputs.
fn run_in<const CONNECTORS: usize, const EXTERNALS: usize>(
    slots: &mut Slots,
    report: &mut [u8],
) -> Counted
    requires { Roomy (model_of slots.old.image) CONNECTORS EXTERNALS }
    ensures { Ran slots.old.image slots.new report.old report.new result }
{
    let mut degrees = [0u32; CONNECTORS];
    let mut marks = [false; EXTERNALS];
    let mut others = [0u32; EXTERNALS];
    let drivers = Drivers::of(slots.image(), &mut degrees, &mut marks, &mut others);
    let mut report = Report {
        bytes: report,
        counted: Counted::default(),
    };
    all_rules(&drivers, slots, &mut report);
    let Report { bytes: _, counted } = report;
    counted
}

// All rules over one report, which holds nothing yet. The slots are then as rule 6 fills them.
pub fn run(slots: &mut Slots, report: &mut [u8]) -> Counted
    ensures { Ran slots.old.image slots.new report.old report.new result }
{
    let image = slots.image();
    let connectors = image.connector_count();
    let externals = image.external_input_count();
    if connectors <= FEW_RECORDS && externals <= FEW_RECORDS {
        run_in::<FEW_RECORDS, FEW_RECORDS>(slots, report)
    } else {
        run_in::<MOST_CONNECTORS, MOST_EXTERNAL_INPUTS>(slots, report)
    }
}

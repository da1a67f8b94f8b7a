// Rule 5, `check_crossed_bounds`: each record's own range, and then the combined domains.
#![tactic(auto)]

ghost use Rattle.std.specs.Prelude.{◌<◌};
ghost use Rattle.oce_model.specs.Model.{model_of, connector_count, boundary_input_count, boundary_output_count};
ghost use Rattle.oce_diag.specs.Reporting.{Room, Puts};
ghost use Rattle.crossed_bounds.specs.CrossedBounds.{crossed_faults, connector_crossed, input_crossed, output_crossed, rule5};
ghost use Rattle.crossed_records.specs.Most.{most_crossed};

use crossed_domains::check_combined_input_domains;
use crossed_ranges::{is_crossed, range_of};
use image_records::Image;
use oce_diag::{DiagCode, Report, Subject, error, subject_of};
use oce_model::{Attrs, ConnectorId};
use structural_externals::Externals;

const RULE: u8 = 5;

const CONNECTOR_DETAIL: u8 = 1;

const INPUT_DETAIL: u8 = 2;

const OUTPUT_DETAIL: u8 = 3;

// ---- one record

// Reports it, if the range of its attributes is crossed: the Rust's `report`.
#[inline(always)]
#[tactic(auto, unfolding(crossed_bounds::specs::CrossedBounds::crossed_faults))]
fn put_crossed(image: &Image, a: &Attrs, detail: u8, subject: Subject, i: u32, report: &mut Report)
    requires { Room 1 report.old }
    ensures { Puts 1 (crossed_faults (model_of image.now) detail subject i a.now) report.old report.new }
{
    let d = error(DiagCode::CrossedBounds, RULE, detail, subject, i);
    report.put_if(is_crossed(range_of(image, a)), d);
}

// Connector i.
pub fn connector_crossed(image: &Image, i: ConnectorId, report: &mut Report)
    requires { (i.0 < connector_count (model_of image.now)) × Room 1 report.old }
    ensures { Puts 1 (connector_crossed (model_of image.now) i.0) report.old report.new }
{
    let c = image.connector(i);
    let a = image.connector_attrs(i);
    let subject = subject_of(c.iri, c.id);
    put_crossed(image, &a, CONNECTOR_DETAIL, subject, i.0, report);
}

// Boundary input i.
pub fn input_crossed(image: &Image, i: usize, report: &mut Report)
    requires { (i < boundary_input_count (model_of image.now)) × Room 1 report.old }
    ensures { Puts 1 (input_crossed (model_of image.now) i) report.old report.new }
{
    prove!(i < image.boundary_input_count());
    let iri = image.boundary_input_iri(i);
    let a = image.boundary_input_attrs(i);
    let subject = Subject::Text(u32::from(iri));
    put_crossed(image, &a, INPUT_DETAIL, subject, i as u32, report);
}

// Boundary output i.
pub fn output_crossed(image: &Image, i: usize, report: &mut Report)
    requires { (i < boundary_output_count (model_of image.now)) × Room 1 report.old }
    ensures { Puts 1 (output_crossed (model_of image.now) i) report.old report.new }
{
    prove!(i < image.boundary_output_count());
    let o = image.boundary_output(i);
    let a = image.boundary_output_attrs(i);
    let subject = Subject::Text(u32::from(o.iri));
    put_crossed(image, &a, OUTPUT_DETAIL, subject, i as u32, report);
}

// ---- the whole rule

// All of them, then the groups of rule 5.4.
pub fn check_crossed_bounds(externals: &Externals, report: &mut Report)
    requires { Room most_crossed report.old }
    ensures { Puts most_crossed (rule5 (model_of externals.now)) report.old report.new }
{
    let image = externals.image();
    'connectors: for i in 0..image.connector_count() {
        connector_crossed(image, ConnectorId(i as u32), report);
    }
    'inputs: for i in 0..image.boundary_input_count() {
        input_crossed(image, i, report);
    }
    'outputs: for i in 0..image.boundary_output_count() {
        output_crossed(image, i, report);
    }
    check_combined_input_domains(externals, report);
}

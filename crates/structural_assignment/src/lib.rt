// Rule 3, the Rust's `check_single_assignment`: each input is driven by one connection, or is external.
#![tactic(auto)]

ghost use Rattle.std.specs.Prelude.{◌≡◌, ◌*◌, ◌<◌, ◌≤◌, length};
ghost use Rattle.oce_model.specs.Format.{most_connectors};
ghost use Rattle.oce_model.specs.Model.{model_of, connector, connector_count};
ghost use Rattle.oce_diag.specs.Reporting.{Room, Puts};
ghost use Rattle.structural.specs.Structural.{assignment_faults, rule3};
ghost use Rattle.structural_assignment.specs.PerRecord.{degree_faults, most_assignment_faults};

use image_records::Image;
use oce_diag::{DiagCode, Report, Subject, error, subject_of};
use oce_model::ConnectorId;
use std::marker::Model;
use structural_degrees::InDegrees;
use structural_externals::Externals;

// The rule's number, and those of its details: nothing drives an input, or more than one connection does.
const RULE: u8 = 3;

const NO_DRIVER: u8 = 1;

const MANY_DRIVERS: u8 = 2;

// ---- an image with what drives its connectors

// An image, the in-degrees of its connectors, and its external inputs. Clauses see the image.
#[derive(Drop)]
pub struct Drivers<'a, 'r, 'i> {
    degrees: InDegrees<'a, 'r, 'i>,
    externals: Externals<'a, 'r, 'i>,
}

impl<'a, 'r, 'i> Model for Drivers<'a, 'r, 'i> {
    ghost use Rattle.std.specs.Prelude.{ℕ, List, ◌≡◌};

    ghost Value = { List ℕ };

    ghost view = { λ d. d.degrees };

    ghost invariant = { λ d. d.externals ≡ d.degrees };
}

impl<'a, 'r, 'i> Drivers<'a, 'r, 'i> {
    // Those of an image, in columns for `InDegrees::count` and `Externals::list`.
    pub fn of(
        image: &'r Image<'i, 'i>,
        degrees: &'a mut [u32],
        marks: &'a mut [bool],
        others: &'a mut [u32],
    ) -> Drivers<'a, 'r, 'i>
        requires { (connector_count (model_of image.now) ≤ length degrees.old) × (length (model_of image.now).external_inputs ≤ length others.old) }
        ensures { result ≡ image.now }
    {
        Drivers {
            degrees: InDegrees::count(image, degrees),
            externals: Externals::list(image, marks, others),
        }
    }

    // The image.
    pub fn image(&self) -> &'r Image<'i, 'i>
        ensures { result.now ≡ self.now }
    {
        self.degrees.image()
    }

    // The image with its in-degrees.
    pub fn degrees(&self) -> &InDegrees<'a, 'r, 'i>
        ensures { result.now ≡ self.now }
    {
        &self.degrees
    }

    // The image with its external inputs.
    pub fn externals(&self) -> &Externals<'a, 'r, 'i>
        ensures { result.now ≡ self.now }
    {
        &self.externals
    }
}

// ---- rule 3

// What was found of input i: its in-degree d, and whether it is external.
fn none_or_many(i: u32, subject: Subject, d: u32, outside: bool, report: &mut Report)
    requires { Room most_assignment_faults report.old }
    ensures { Puts most_assignment_faults (degree_faults i subject d outside) report.old report.new }
{
    let none = error(DiagCode::SingleAssignment, RULE, NO_DRIVER, subject, i);
    report.put_if(d == 0 && !outside, none);
    let many = error(DiagCode::SingleAssignment, RULE, MANY_DRIVERS, subject, d);
    report.put_if(1 < d, many);
}

// What rule 3 reports of connector i: an input that nothing drives, or that is driven more than once.
pub fn assignment_faults(drivers: &Drivers, i: ConnectorId, report: &mut Report)
    requires { (i.0 < connector_count (model_of drivers.now)) × Room most_assignment_faults report.old }
    ensures { Puts most_assignment_faults (assignment_faults (model_of drivers.now) i.0 (connector (model_of drivers.now) i.0)) report.old report.new }
{
    let c = drivers.image().connector(i);
    if c.dir.is_in() {
        let subject = subject_of(c.iri, c.id);
        let d = drivers.degrees().degree(c.id);
        let outside = drivers.externals().contains(c.id.0 as usize);
        none_or_many(i.0, subject, d, outside, report);
    }
}

// All connectors in turn.
pub fn check_single_assignment(drivers: &Drivers, report: &mut Report)
    requires { Room (most_assignment_faults * most_connectors) report.old }
    ensures { Puts (most_assignment_faults * most_connectors) (rule3 (model_of drivers.now)) report.old report.new }
{
    for i in 0..drivers.image().connector_count() as u32 {
        assignment_faults(drivers, ConnectorId(i), report);
    }
}

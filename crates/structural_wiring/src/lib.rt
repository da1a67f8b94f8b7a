// Rules 2 and 4, the Rust's `check_boundary_outputs` and `check_connections`: the connectors that a
// boundary output or a connection refers to exist, with the directions and types that it asks for.
#![tactic(auto)]

ghost use Rattle.std.specs.Prelude.{◌≡◌, ◌&&◌, ◌*◌, ◌<◌, eqb};
ghost use Rattle.oce_model.specs.Format.{most_boundary_outputs, most_connections};
ghost use Rattle.oce_model.specs.Model.{kind_number, model_of, connection, boundary_output, connection_count, boundary_output_count};
ghost use Rattle.oce_diag.specs.Reporting.{Room, Puts};
ghost use Rattle.structural.specs.Structural.{output_faults, rule2, connection_faults, rule4};
ghost use Rattle.structural_wiring.specs.PerRecord.{most_output_faults, most_connection_faults};

use image_records::Image;
use oce_diag::DiagCode::{DirectionMismatch, MalformedDocument, TypeMismatch};
use oce_diag::{Report, Subject, error, subject_of};
use oce_model::ConnectorFront;

// The numbers of these rules, and of the details that each gives: of a boundary output's source, and of
// the ends of a connection.
const RULE_2: u8 = 2;

const SOURCE_OUTSIDE: u8 = 1;

const SOURCE_INWARDS: u8 = 2;

const SOURCE_KIND: u8 = 3;

const RULE_4: u8 = 4;

const OUTSIDE: u8 = 1;

const FROM_INWARDS: u8 = 2;

const TO_OUTWARDS: u8 = 3;

const TYPES_DIFFER: u8 = 4;

// ---- rule 2

// What rule 2 reports of boundary output i.
pub fn output_faults(image: &Image, i: usize, report: &mut Report)
    requires { (i < boundary_output_count (model_of image.now)) × Room most_output_faults report.old }
    ensures { Puts most_output_faults (output_faults (model_of image.now) i (boundary_output (model_of image.now) i)) report.old report.new }
{
    prove!(i < image.boundary_output_count());
    let o = image.boundary_output(i);
    let subject = Subject::Text(u32::from(o.iri));
    let place = i as u32;
    if (o.source.0 as usize) < image.connector_count() {
        let own = image.boundary_output_attrs(i);
        let c = image.connector(o.source);
        let inwards = error(DirectionMismatch, RULE_2, SOURCE_INWARDS, subject, place);
        report.put_if(c.dir.is_in(), inwards);
        let other = error(MalformedDocument, RULE_2, SOURCE_KIND, subject, place);
        report.put_if(!own.has_kind(c.value_type), other);
    } else {
        let outside = error(MalformedDocument, RULE_2, SOURCE_OUTSIDE, subject, place);
        report.put(outside);
    }
}

// All boundary outputs in turn.
pub fn check_boundary_outputs(image: &Image, report: &mut Report)
    requires { Room (most_output_faults * most_boundary_outputs) report.old }
    ensures { Puts (most_output_faults * most_boundary_outputs) (rule2 (model_of image.now)) report.old report.new }
{
    for i in 0..image.boundary_output_count() {
        output_faults(image, i, report);
    }
}

// ---- rule 4

// Two types are equal, the class of an enum included.
fn same_type(a: ConnectorFront, b: ConnectorFront) -> bool
    ensures { result ≡ (eqb (kind_number a.value_type) (kind_number b.value_type) && eqb a.class b.class) }
{
    a.value_type == b.value_type && a.class == b.class
}

// What rule 4 reports of connection k.
pub fn connection_faults(image: &Image, k: usize, report: &mut Report)
    requires { (k < connection_count (model_of image.now)) × Room most_connection_faults report.old }
    ensures { Puts most_connection_faults (connection_faults (model_of image.now) k (connection (model_of image.now) k)) report.old report.new }
{
    prove!(k < image.connection_count());
    let c = image.connection(k);
    let n = image.connector_count();
    let place = k as u32;
    if (c.from.0 as usize) < n && (c.to.0 as usize) < n {
        let a = image.connector(c.from);
        let b = image.connector(c.to);
        let from = subject_of(a.iri, a.id);
        let to = subject_of(b.iri, b.id);
        let inwards = error(DirectionMismatch, RULE_4, FROM_INWARDS, from, place);
        report.put_if(a.dir.is_in(), inwards);
        let outwards = error(DirectionMismatch, RULE_4, TO_OUTWARDS, to, place);
        report.put_if(!b.dir.is_in(), outwards);
        let other = error(TypeMismatch, RULE_4, TYPES_DIFFER, to, place);
        report.put_if(!same_type(a, b), other);
    } else {
        let outside = error(MalformedDocument, RULE_4, OUTSIDE, Subject::Nothing, place);
        report.put(outside);
    }
}

// All connections in turn.
pub fn check_connections(image: &Image, report: &mut Report)
    requires { Room (most_connection_faults * most_connections) report.old }
    ensures { Puts (most_connection_faults * most_connections) (rule4 (model_of image.now)) report.old report.new }
{
    for k in 0..image.connection_count() {
        connection_faults(image, k, report);
    }
}

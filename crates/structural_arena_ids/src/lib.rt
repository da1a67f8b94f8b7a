// Rule 1, the Rust's `check_arena_ids`: ids are numbers of records, and what they refer to exists.
#![tactic(auto)]

ghost use Rattle.std.specs.Prelude.{◌<◌, length};
ghost use Rattle.base.specs.Lists.{each};
ghost use Rattle.oce_model.specs.Format.{most_ports};
ghost use Rattle.oce_model.specs.Model.{model_of, block, connector, block_count, connector_count};
ghost use Rattle.oce_diag.specs.Reporting.{Room, Puts};
ghost use Rattle.structural.specs.Structural.{block_faults, connector_faults, rule1};
ghost use Rattle.structural_arena_ids.specs.PerRecord.{port_fault, most_block_faults, most_connector_faults, most_arena_faults};

use image_records::{Ids, Image};
use oce_diag::DiagCode::MalformedDocument;
use oce_diag::{Report, Subject, block_subject_of, error, subject_of};
use oce_model::{BlockId, ConnectorId};

// The number of this rule, and of each detail that it gives.
const RULE: u8 = 1;

const BLOCK_ID: u8 = 1;

const INPUT: u8 = 2;

const OUTPUT: u8 = 3;

const CONNECTOR_ID: u8 = 4;

const CONNECTOR_BLOCK: u8 = 5;

// ---- blocks

// Each port in turn.
#[inline(always)]
fn put_ports(ids: &Ids, n: usize, subject: Subject, detail: u8, report: &mut Report)
    requires { Room most_ports report.old }
    ensures { Puts most_ports (each (length ids.now) (port_fault n subject detail ids.now)) report.old report.new }
{
    for j in 0..ids.count() {
        let outside = error(MalformedDocument, RULE, detail, subject, j as u32);
        report.put_if(ids.id(j) as usize >= n, outside);
    }
}

// The Rust's `check_block_port_ids`, of the ids of a block's inputs or of its outputs, in a model of n
// connectors. There may be many: they are put into a report of their own over the same bytes, which is counted in
// registers.
fn port_faults(ids: &Ids, n: usize, subject: Subject, detail: u8, report: &mut Report)
    requires { Room most_ports report.old }
    ensures { Puts most_ports (each (length ids.now) (port_fault n subject detail ids.now)) report.old report.new }
{
    let mut own = Report {
        bytes: &mut *report.bytes,
        counted: report.counted,
    };
    put_ports(ids, n, subject, detail, &mut own);
    let Report { counted, bytes: _ } = own;
    report.counted = counted;
}

// What rule 1 reports of block i: its id, then its ports.
pub fn block_faults(image: &Image, i: BlockId, report: &mut Report)
    requires { (i.0 < block_count (model_of image.now)) × Room most_block_faults report.old }
    ensures { Puts most_block_faults (block_faults (model_of image.now) i.0 (block (model_of image.now) i.0)) report.old report.new }
{
    let b = image.block(i);
    let n = image.connector_count();
    let subject = block_subject_of(b.instance, b.id);
    let own = error(MalformedDocument, RULE, BLOCK_ID, subject, i.0);
    report.put_if(b.id.0 != i.0, own);
    port_faults(&b.inputs, n, subject, INPUT, report);
    port_faults(&b.outputs, n, subject, OUTPUT, report);
}

// ---- connectors

// What rule 1 reports of connector i: its id, then its block.
pub fn connector_faults(image: &Image, i: ConnectorId, report: &mut Report)
    requires { (i.0 < connector_count (model_of image.now)) × Room most_connector_faults report.old }
    ensures { Puts most_connector_faults (connector_faults (model_of image.now) i.0 (connector (model_of image.now) i.0)) report.old report.new }
{
    let c = image.connector(i);
    let n = image.block_count();
    let subject = subject_of(c.iri, c.id);
    let own = error(MalformedDocument, RULE, CONNECTOR_ID, subject, i.0);
    report.put_if(c.id.0 != i.0, own);
    let outside = error(MalformedDocument, RULE, CONNECTOR_BLOCK, subject, i.0);
    report.put_if(c.block.0 as usize >= n, outside);
}

// ---- rule 1

// All blocks in turn, then all connectors.
pub fn check_arena_ids(image: &Image, report: &mut Report)
    requires { Room most_arena_faults report.old }
    ensures { Puts most_arena_faults (rule1 (model_of image.now)) report.old report.new }
{
    for i in 0..image.block_count() as u32 {
        block_faults(image, BlockId(i), report);
    }
    for i in 0..image.connector_count() as u32 {
        connector_faults(image, ConnectorId(i), report);
    }
}

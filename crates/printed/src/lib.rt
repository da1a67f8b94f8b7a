// The lines of the printed report, put behind those of a text that has room for them.
#![tactic(auto)]

ghost use Rattle.std.specs.Prelude.{◌≡◌, ◌+◌, ◌<◌, ◌≤◌, ◌++◌, length};
ghost use Rattle.arrayvec.specs.ArrayVec.{array_vec_len};
ghost use Rattle.numbers.specs.Bytes.{word_range};
ghost use Rattle.oce_model.specs.Format.{longest_text};
ghost use Rattle.printed.specs.Printed.{severity_name, code_name, names, rule_and_detail, subject_field, line_end, line, refused_line, first_line, longest_severity, longest_code, longest_names, longest_rule, longest_end, longest_line, longest_refused};
ghost use Rattle.printed.specs.Pieces.{Pieced, Row};

use arrayvec::ArrayVec;
use decimal::{Number, put_bytes, put_labelled};
use image_records::Image;
use oce_diag::{DIAGNOSTIC_SIZE, DiagCode, Diagnostic, Severity, Subject, decode};
use outcome::Answer;
use reader::Reader;
use subject::put_label;

// No line of a diagnostic is longer.
pub const LONGEST_LINE: usize = 305;

// No first line is longer.
pub const LONGEST_FIRST_LINE: usize = 38;

// ---- a diagnostic's fields, each put behind out's bytes

// A severity's name.
#[tactic(auto, unfolding(crate::specs::Printed::severity_name))]
fn severity_name(severity: Severity) -> &'static [u8]
    ensures name { result.now ≡ severity_name severity }
    ensures few { length result.now ≤ longest_severity }
{
    match severity {
        Severity::Error => b"error",
        Severity::Warning => b"warning",
    }
}

// A code's name.
#[tactic(auto, unfolding(crate::specs::Printed::code_name))]
fn code_name(code: DiagCode) -> &'static [u8]
    ensures name { result.now ≡ code_name code }
    ensures few { length result.now ≤ longest_code }
{
    match code {
        DiagCode::MalformedDocument => b"MalformedDocument",
        DiagCode::DirectionMismatch => b"DirectionMismatch",
        DiagCode::SingleAssignment => b"SingleAssignment",
        DiagCode::TypeMismatch => b"TypeMismatch",
        DiagCode::UnitQuantityMismatch => b"UnitQuantityMismatch",
        DiagCode::BoundMismatch => b"BoundMismatch",
        DiagCode::CrossedBounds => b"CrossedBounds",
        DiagCode::DisplayUnitDivergence => b"DisplayUnitDivergence",
    }
}

// Severity and code, a space between.
fn put_names<const CAP: usize>(out: &mut ArrayVec<u8, CAP>, severity: Severity, code: DiagCode)
    requires { array_vec_len out.old + longest_names ≤ CAP }
    ensures items { out.new.items ≡ out.old.items ++ names severity code }
    ensures few { array_vec_len out.new ≤ array_vec_len out.old + longest_names }
{
    put_bytes(out, severity_name(severity));
    put_bytes(out, b" ");
    put_bytes(out, code_name(code));
}

// Behind a space rule and detail, a dot between.
fn put_rule<const CAP: usize>(out: &mut ArrayVec<u8, CAP>, rule: u8, detail: u8)
    requires { array_vec_len out.old + longest_rule ≤ CAP }
    ensures items { out.new.items ≡ out.old.items ++ rule_and_detail rule detail }
    ensures few { array_vec_len out.new ≤ array_vec_len out.old + longest_rule }
{
    put_labelled(out, b" ", rule);
    put_labelled(out, b".", detail);
}

// A subject's text, `-` where there is none.
#[tactic(auto, unfolding(crate::specs::Printed::subject_field), using(crate::proofs::Laws::text_few, crate::proofs::Laws::subject_is))]
fn put_subject<const CAP: usize>(image: &Image, out: &mut ArrayVec<u8, CAP>, subject: Subject)
    requires { array_vec_len out.old + longest_text ≤ CAP }
    ensures items { out.new.items ≡ out.old.items ++ subject_field image.now subject }
    ensures few { array_vec_len out.new ≤ array_vec_len out.old + longest_text }
{
    // that the image was accepted, so its texts are short
    let _laid = image.layout();
    match subject {
        Subject::Nothing => put_bytes(out, b"-"),
        Subject::Text(t) => put_bytes(out, image.text(t as usize)),
        Subject::Connector(_) | Subject::Block(_) => put_label(out, subject),
    }
}

// Behind a space the subject, and the end of the line.
fn put_end<const CAP: usize>(image: &Image, out: &mut ArrayVec<u8, CAP>, subject: Subject)
    requires { array_vec_len out.old + longest_end ≤ CAP }
    ensures { out.new.items ≡ out.old.items ++ line_end image.now subject }
{
    put_bytes(out, b" ");
    put_subject(image, out, subject);
    put_bytes(out, b"\n");
}

// ---- lines

// The line of a diagnostic.
#[tactic(auto, unfolding(crate::specs::Printed::line))]
fn put_line<const CAP: usize>(image: &Image, out: &mut ArrayVec<u8, CAP>, d: Diagnostic)
    requires { array_vec_len out.old + longest_line ≤ CAP }
    ensures { out.new.items ≡ out.old.items ++ line image.now d }
{
    put_names(out, d.severity, d.code);
    put_rule(out, d.rule, d.detail);
    put_labelled(out, b" ", d.place);
    put_end(image, out, d.subject);
}

// The line of a refusal: its number, and an offset of any width.
pub fn put_refusal<N: Number, const CAP: usize>(out: &mut ArrayVec<u8, CAP>, number: u32, offset: N)
    requires { array_vec_len out.old + longest_refused N.most ≤ CAP }
    ensures { out.new.items ≡ out.old.items ++ refused_line number (N.digits offset) }
{
    put_labelled(out, b"refused ", number);
    put_labelled(out, b" at ", offset);
    put_bytes(out, b"\n");
}

// The first line: the counts, or the refusal.
#[tactic(auto, unfolding(crate::specs::Printed::first_line))]
pub fn first_line(answer: Answer) -> ArrayVec<u8, LONGEST_FIRST_LINE>
    ensures { result.items ≡ first_line answer }
{
    let mut line = ArrayVec::new();
    match answer {
        Ok(counted) => {
            put_labelled(&mut line, b"errors ", counted.errors);
            put_labelled(&mut line, b" warnings ", counted.warnings);
            put_bytes(&mut line, b"\n");
        }
        Err(refusal) => put_refusal(&mut line, refusal.number, refusal.offset),
    }
    line
}

// The lines of a report's diagnostics, from the one with number `from` on and as long as the longest line
// has room; gives the number of the next. A reader goes through the report, field by field.
pub fn put_lines<const CAP: usize>(
    image: &Image,
    report: &[u8],
    from: usize,
    count: usize,
    out: &mut ArrayVec<u8, CAP>,
) -> usize
    requires { (from ≤ count) × (count < word_range) × Row report.now count }
    ensures { Pieced image.now report.now from count CAP out.old.items out.new.items result }
{
    let mut fields = Reader {
        image: report,
        at: DIAGNOSTIC_SIZE * from,
    };
    for i in from..count {
        if out.remaining_capacity() < LONGEST_LINE {
            return i;
        }
        let Some(field) = fields.next() else {
            return i;
        };
        put_line(image, out, decode(report, field.at));
    }
    count
}

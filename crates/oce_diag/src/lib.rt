// Diagnostics, as oce-diag has them, and how they are put into a report.
#![tactic(auto)]

ghost use Rattle.std.specs.Prelude.{◌≡◌, [], ◌∷◌, ◌+◌, ◌<◌};
ghost use Rattle.oce_diag.specs.Diagnostics.{connector_subject, block_subject, error, warning, errors, warnings};
ghost use Rattle.oce_diag.specs.Encoding.{severity_number, code_number, subject_kind, subject_number, diagnostic_bytes, diagnostic_size};
ghost use Rattle.oce_diag.specs.Putting.{put_one, total, Countable};
ghost use Rattle.numbers.specs.Bytes.{word_range, byte, long_range};
ghost use Rattle.oce_diag.specs.Decoded.{severity_of, code_of, subject_from, decoded_at, diagnostic_at};

mod report;

use base::copy_at;
use numbers::LittleEndian;
use oce_model::{BlockId, ConnectorId, LEADING_BYTES, NO_TEXT};
pub use report::Report;

// The Rust's `Severity`, less `Info`, which no rule gives.
#[derive(Clone, Copy)]
pub enum Severity {
    Error,
    Warning,
}

// The Rust's `DiagCode`, those that the rules give.
#[derive(Clone, Copy)]
pub enum DiagCode {
    MalformedDocument = 1,
    DirectionMismatch,
    SingleAssignment,
    TypeMismatch,
    UnitQuantityMismatch,
    BoundMismatch,
    CrossedBounds,
    DisplayUnitDivergence,
}

// What a diagnostic is about: nothing, a text by its number, a connector or a block by its id.
#[derive(Clone, Copy)]
pub enum Subject {
    Nothing,
    Text(u32),
    Connector(ConnectorId),
    Block(BlockId),
}

// One diagnostic of a report. Rule, detail and place stand for the Rust's message.
#[derive(Clone, Copy)]
pub struct Diagnostic {
    pub severity: Severity,
    pub code: DiagCode,
    pub rule: u8,
    pub detail: u8,
    pub subject: Subject,
    pub place: u32,
}

// How many errors and how many warnings were counted.
#[derive(Clone, Copy, PartialEq, Eq, Default, Debug)]
pub struct Counted {
    pub errors: u32,
    pub warnings: u32,
}

impl Counted {
    // How many of both.
    pub fn total(self) -> usize
        ensures { (result ≡ total self) × (result < word_range + word_range) }
    {
        self.errors as usize + self.warnings as usize
    }
}

// The tag of a diagnostic's field, the bytes of its contents, and of all of it.
pub const DIAGNOSTIC_TAG: u8 = 0x20;

pub const DIAGNOSTIC_LENGTH: usize = 16;

pub const DIAGNOSTIC_SIZE: usize = LEADING_BYTES + DIAGNOSTIC_LENGTH;

// Where its parts stand, from its first byte.
pub const SEVERITY_PLACE: usize = LEADING_BYTES;

pub const CODE_PLACE: usize = SEVERITY_PLACE + 1;

pub const RULE_PLACE: usize = CODE_PLACE + 1;

pub const DETAIL_PLACE: usize = RULE_PLACE + 1;

pub const SUBJECT_KIND_PLACE: usize = DETAIL_PLACE + 1;

pub const SUBJECT_NUMBER_PLACE: usize = SUBJECT_KIND_PLACE + 1 + ZERO_COUNT;

pub const PLACE_PLACE: usize = SUBJECT_NUMBER_PLACE + u32::SIZE;

// How many zero bytes stand behind the kind of subject.
const ZERO_COUNT: usize = 3;

// The numbers of the kinds of subject.
const NO_SUBJECT: u8 = 0;

pub const TEXT_SUBJECT: u8 = 1;

pub const CONNECTOR_SUBJECT: u8 = 2;

pub const BLOCK_SUBJECT: u8 = 3;

// ---- making a diagnostic

// The Rust's `subject_of`: a connector's iri text, or its id where it has none.
pub fn subject_of(iri: u16, id: ConnectorId) -> Subject
    ensures { result ≡ connector_subject iri id }
{
    if iri == NO_TEXT {
        return Subject::Connector(id);
    }
    Subject::Text(u32::from(iri))
}

// The Rust's `block_subject_of`: a block's instance text, or its id where it has none.
pub fn block_subject_of(instance: u16, id: BlockId) -> Subject
    ensures { result ≡ block_subject instance id }
{
    if instance == NO_TEXT {
        return Subject::Block(id);
    }
    Subject::Text(u32::from(instance))
}

// An error.
#[tactic(auto, unfolding(crate::specs::Diagnostics::diagnostic))]
pub fn error(code: DiagCode, rule: u8, detail: u8, subject: Subject, place: u32) -> Diagnostic
    ensures { result ≡ error code rule detail subject place }
{
    Diagnostic {
        severity: Severity::Error,
        code,
        rule,
        detail,
        subject,
        place,
    }
}

// A warning.
#[tactic(auto, unfolding(crate::specs::Diagnostics::diagnostic))]
pub fn warning(code: DiagCode, rule: u8, detail: u8, subject: Subject, place: u32) -> Diagnostic
    ensures { result ≡ warning code rule detail subject place }
{
    Diagnostic {
        severity: Severity::Warning,
        ..error(code, rule, detail, subject, place)
    }
}

// ---- its numbers

// A severity's number in a report.
pub fn severity_number(s: Severity) -> u8
    ensures { result ≡ severity_number s }
{
    s as u8
}

// A code's number in a report.
pub fn code_number(c: DiagCode) -> u8
    ensures { result ≡ code_number c }
{
    c as u8
}

// The number of a subject's kind in a report.
pub fn subject_kind(s: Subject) -> u8
    ensures { result ≡ subject_kind s }
{
    match s {
        Subject::Nothing => NO_SUBJECT,
        Subject::Text(_) => TEXT_SUBJECT,
        Subject::Connector(_) => CONNECTOR_SUBJECT,
        Subject::Block(_) => BLOCK_SUBJECT,
    }
}

// A text's number or an id, 0 for no subject.
pub fn subject_number(s: Subject) -> u32
    ensures { result ≡ subject_number s }
{
    match s {
        Subject::Nothing => 0,
        Subject::Text(t) => t,
        Subject::Connector(i) => i.0,
        Subject::Block(i) => i.0,
    }
}

// Its bytes in a report.
fn encode(d: Diagnostic) -> [u8; DIAGNOSTIC_SIZE]
    ensures { result ≡ diagnostic_bytes d }
{
    let [n0, n1, n2, n3] = subject_number(d.subject).to_le_bytes();
    let [p0, p1, p2, p3] = d.place.to_le_bytes();
    [
        DIAGNOSTIC_TAG,
        DIAGNOSTIC_LENGTH as u8,
        0,
        severity_number(d.severity),
        code_number(d.code),
        d.rule,
        d.detail,
        subject_kind(d.subject),
        0,
        0,
        0,
        n0,
        n1,
        n2,
        n3,
        p0,
        p1,
        p2,
        p3,
    ]
}

// ---- putting it into a report

// Diagnostic n of a report, written where there is room for it.
fn write(report: &mut [u8], n: usize, d: Diagnostic)
    requires { n < word_range }
    ensures { report.new ≡ put_one report.old n d }
{
    let at = DIAGNOSTIC_SIZE * n;
    if at + DIAGNOSTIC_SIZE <= report.len() {
        let bytes = encode(d);
        copy_at(report, at, &bytes);
    }
}

// One more error or one more warning.
fn count(c: Counted, d: Diagnostic) -> Counted
    requires { Countable 1 c }
    ensures { (result.errors ≡ c.errors + errors (d ∷ [])) × (result.warnings ≡ c.warnings + warnings (d ∷ [])) × (total result ≡ total c + 1) }
{
    match d.severity {
        Severity::Error => Counted {
            errors: c.errors + 1,
            ..c
        },
        Severity::Warning => Counted {
            warnings: c.warnings + 1,
            ..c
        },
    }
}

// ---- reading it back

// The severity of a number: one that none has is read as a warning's.
fn severity_of(n: u8) -> Severity
    ensures { result ≡ severity_of n }
{
    if n == Severity::Error as u8 {
        return Severity::Error;
    }
    Severity::Warning
}

// The code of a number: one that none has is read as the last code's.
fn code_of(n: u8) -> DiagCode
    ensures { result ≡ code_of n }
{
    match n {
        1 => DiagCode::MalformedDocument,
        2 => DiagCode::DirectionMismatch,
        3 => DiagCode::SingleAssignment,
        4 => DiagCode::TypeMismatch,
        5 => DiagCode::UnitQuantityMismatch,
        6 => DiagCode::BoundMismatch,
        7 => DiagCode::CrossedBounds,
        _ => DiagCode::DisplayUnitDivergence,
    }
}

// The subject of a kind's number and a number, none for another kind.
#[tactic(auto, unfolding(crate::specs::Decoded::subject_from))]
pub fn subject_from(kind: u8, number: u32) -> Subject
    ensures { result ≡ subject_from kind number }
{
    match kind {
        TEXT_SUBJECT => Subject::Text(number),
        CONNECTOR_SUBJECT => Subject::Connector(ConnectorId(number)),
        BLOCK_SUBJECT => Subject::Block(BlockId(number)),
        _ => Subject::Nothing,
    }
}

// The diagnostic whose bytes begin at an offset of a report.
pub fn decode(report: &[u8], at: usize) -> Diagnostic
    requires { at + diagnostic_size < long_range }
    ensures { result ≡ decoded_at report.now at }
{
    let number = u32::read_padded(report, at + SUBJECT_NUMBER_PLACE);
    let severity = severity_of(u8::read_padded(report, at + SEVERITY_PLACE));
    let code = code_of(u8::read_padded(report, at + CODE_PLACE));
    let subject = subject_from(u8::read_padded(report, at + SUBJECT_KIND_PLACE), number);
    Diagnostic {
        severity,
        code,
        rule: u8::read_padded(report, at + RULE_PLACE),
        detail: u8::read_padded(report, at + DETAIL_PLACE),
        subject,
        place: u32::read_padded(report, at + PLACE_PLACE),
    }
}

// Diagnostic i of a report.
pub fn diagnostic_at(report: &[u8], i: usize) -> Diagnostic
    requires { i < word_range }
    ensures { result ≡ diagnostic_at report.now i }
{
    decode(report, DIAGNOSTIC_SIZE * i)
}

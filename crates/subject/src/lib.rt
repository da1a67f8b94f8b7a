// A subject's text, as a part of the image or of the caller's scratch.
#![tactic(auto)]

ghost use Rattle.std.specs.Prelude.{◌≡◌, ◌+◌, ◌≤◌, ◌++◌, length, take};
ghost use Rattle.arrayvec.specs.ArrayVec.{array_vec_len};
ghost use Rattle.base.specs.Buffers.{starts_with};
ghost use Rattle.subject.specs.Subject.{labelled, label, least_scratch, if_room, written, scratch_after, part_of, part};

use arrayvec::ArrayVec;
use decimal::put_labelled;
use image_records::{Image, Tables};
use oce_diag::{Subject, subject_from};

// The longest label with the longest id has as many bytes.
pub const LEAST_SCRATCH: usize = 20;

// ---- a label and an id

// Puts `connector#` or `block#` and the id behind out's bytes; another kind of subject has none.
#[tactic(auto, unfolding(crate::specs::Subject::labelled))]
pub fn put_label<const CAP: usize>(out: &mut ArrayVec<u8, CAP>, subject: Subject)
    requires { array_vec_len out.old + least_scratch ≤ CAP }
    ensures items { out.new.items ≡ out.old.items ++ label subject }
    ensures few { array_vec_len out.new ≤ array_vec_len out.old + least_scratch }
{
    match subject {
        Subject::Connector(i) => put_labelled(out, b"connector#", i.0),
        Subject::Block(i) => put_labelled(out, b"block#", i.0),
        Subject::Nothing | Subject::Text(_) => {}
    }
}

// The same alone.
fn label_of(subject: Subject) -> ArrayVec<u8, LEAST_SCRATCH>
    ensures { result.items ≡ label subject }
{
    let mut label = ArrayVec::new();
    put_label(&mut label, subject);
    label
}

// Puts the same at the start of the scratch, where it has room, and gives the length written.
#[tactic(auto, using(crate::proofs::Laws::label_from), unfolding(crate::specs::Subject::if_room, base::specs::Buffers::starts_with))]
pub fn write_label(kind: u8, number: u32, scratch: &mut [u8]) -> usize
    ensures length { result ≡ length (if_room scratch.old (labelled kind number)) }
    ensures scratch { scratch.new ≡ starts_with (if_room scratch.old (labelled kind number)) scratch.old }
{
    if scratch.len() < LEAST_SCRATCH {
        return 0;
    }
    let label = label_of(subject_from(kind, number));
    scratch[..label.len()].copy_from_slice(&label);
    label.len()
}

// And read from there.
#[tactic(auto, unfolding(crate::specs::Subject::if_room))]
fn read_label(scratch: &[u8], subject: Subject) -> &[u8]
    ensures { result.now ≡ take (length (if_room scratch.now (label subject))) scratch.now }
{
    if scratch.len() < LEAST_SCRATCH {
        return &[];
    }
    &scratch[..label_of(subject).len()]
}

// ---- the two calls

// Hands out a subject's text of an accepted image: a part of the image, or of the scratch that `write_label`
// wrote.
#[tactic(auto, unfolding(crate::specs::Subject::part_of))]
pub fn accepted_subject<'a>(
    image: &Image<'a, '_>,
    scratch: &'a [u8],
    kind: u8,
    number: u32,
) -> &'a [u8]
    ensures { result.now ≡ part_of image.now scratch.now kind number }
{
    match subject_from(kind, number) {
        Subject::Text(t) => image.text(t as usize),
        subject => read_label(scratch, subject),
    }
}

// Writes a label for an accepted image.
fn write_accepted(image: &[u8], kind: u8, number: u32, scratch: &mut [u8]) -> usize
    ensures length { result ≡ length (written image.now kind number scratch.old) }
    ensures scratch { scratch.new ≡ scratch_after image.now kind number scratch.old }
{
    let mut tables = Tables::EMPTY;
    match Image::accept(image, &mut tables) {
        Ok(_) => write_label(kind, number, scratch),
        Err(_) => 0,
    }
}

// Writes a subject's text at the start of the scratch, if it isn't a part of the image, and gives the
// length written. Where nothing is written, the image isn't gone through.
pub fn write_subject(image: &[u8], kind: u8, number: u32, scratch: &mut [u8]) -> usize
    ensures length { result ≡ length (written image.now kind number scratch.old) }
    ensures scratch { scratch.new ≡ scratch_after image.now kind number scratch.old }
{
    match subject_from(kind, number) {
        Subject::Nothing | Subject::Text(_) => 0,
        Subject::Connector(_) | Subject::Block(_) => write_accepted(image, kind, number, scratch),
    }
}

// Hands out a subject's text: a part of the image, or of the scratch that `write_subject` wrote.
pub fn subject<'a>(image: &'a [u8], scratch: &'a [u8], kind: u8, number: u32) -> &'a [u8]
    ensures { result.now ≡ part image.now scratch.now kind number }
{
    let mut tables = Tables::EMPTY;
    match Image::accept(image, &mut tables) {
        Ok(accepted) => accepted_subject(&accepted, scratch, kind, number),
        Err(_) => &[],
    }
}

// The lines that are printed for a batch; and counts and answers read back from its output.
#![tactic(auto)]

ghost use Rattle.std.specs.Prelude.{◌≡◌, ◌++◌, ◌+◌, ◌<◌};
ghost use Rattle.numbers.specs.Bytes.{long_range};
ghost use Rattle.batch.specs.Output.{summary_size};
ghost use Rattle.printed.specs.Printed.{first_line};
ghost use Rattle.printed_batch.specs.PrintedBatch.{image_line, refusal_line};
ghost use Rattle.printed_batch.specs.ReadBack.{counted_in, answer_in};

use arrayvec::ArrayVec;
use batch::{BatchRefusal, ERRORS_PLACE, OFFSET_PLACE, REFUSAL_PLACE, WARNINGS_PLACE};
use decimal::{put_bytes, put_labelled};
use numbers::LittleEndian;
use oce_diag::Counted;
use oce_model::Refusal;
use outcome::Answer;
use printed::{first_line, put_refusal};

// No two first lines of an image are longer.
pub const LONGEST_IMAGE_LINES: usize = 55;

// No line of a refused batch is longer.
pub const LONGEST_REFUSAL_LINE: usize = 43;

// ---- lines

// The line in front of an image's own, and the image's first one.
#[tactic(auto, unfolding(crate::specs::PrintedBatch::image_line))]
pub fn image_lines(i: u32, answer: Answer) -> ArrayVec<u8, LONGEST_IMAGE_LINES>
    ensures { result.items ≡ image_line i ++ first_line answer }
{
    let mut lines = ArrayVec::new();
    put_labelled(&mut lines, b"image ", i);
    put_bytes(&mut lines, b"\n");
    put_bytes(&mut lines, &first_line(answer));
    lines
}

// The line of a refused batch.
#[tactic(auto, unfolding(crate::specs::PrintedBatch::refusal_line))]
pub fn refusal_line(refusal: BatchRefusal) -> ArrayVec<u8, LONGEST_REFUSAL_LINE>
    ensures { result.items ≡ refusal_line refusal }
{
    let mut line = ArrayVec::new();
    put_refusal(&mut line, refusal.number, refusal.offset as u64);
    line
}

// ---- answers

// The counts in the field that begins at an offset of an output, whatever its refusal is.
#[tactic(auto, unfolding(crate::specs::ReadBack::counted_in))]
pub fn counted_in(output: &[u8], o: usize) -> Counted
    requires { o + summary_size < long_range }
    ensures { result ≡ counted_in output.now o }
{
    Counted {
        errors: u32::read_padded(output, o + ERRORS_PLACE),
        warnings: u32::read_padded(output, o + WARNINGS_PLACE),
    }
}

// The answer that such a field stands for: number 0 is no refusal.
#[tactic(auto, unfolding(crate::specs::ReadBack::answer_in))]
pub fn answer_in(output: &[u8], o: usize) -> Answer
    requires { o + summary_size < long_range }
    ensures { result ≡ answer_in output.now o }
{
    let number = u8::read_padded(output, o + REFUSAL_PLACE);
    if number == 0 {
        return Ok(counted_in(output, o));
    }
    Err(Refusal {
        number: u32::from(number),
        offset: u32::read_padded(output, o + OFFSET_PLACE),
    })
}

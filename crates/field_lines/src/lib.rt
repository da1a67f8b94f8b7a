// The lines that list an image's fields, put behind those of a text that has room for them: each field's offset, tag
// and length.
#![tactic(auto)]

ghost use Rattle.std.specs.Prelude.{◌≡◌, ◌+◌, ◌<◌, ◌≤◌, ◌++◌, length};
ghost use Rattle.arrayvec.specs.ArrayVec.{array_vec_len};
ghost use Rattle.numbers.specs.Bytes.{word_range};
ghost use Rattle.field_lines.specs.Lines.{field_line, longest_field_line, Pieced};

use arrayvec::ArrayVec;
use decimal::{put_bytes, put_labelled, put_number};
use reader::{Found, Reader};

// No line is longer.
pub const LONGEST_FIELD_LINE: usize = 26;

// The line of a field.
#[tactic(auto, unfolding(crate::specs::Lines::field_line))]
fn put_field<const CAP: usize>(out: &mut ArrayVec<u8, CAP>, field: Found)
    requires { (array_vec_len out.old + longest_field_line ≤ CAP) × (field.at < word_range) }
    ensures { out.new.items ≡ out.old.items ++ field_line field.at field.tag field.len }
{
    put_number(out, field.at as u32);
    put_labelled(out, b" ", field.tag);
    put_labelled(out, b" ", u32::from(field.len));
    put_bytes(out, b"\n");
}

// The lines of the fields from an offset on, as long as the longest line has room; gives the offset of the
// next field to list, if one may be left.
pub fn put_fields<const CAP: usize>(
    image: &[u8],
    from: usize,
    out: &mut ArrayVec<u8, CAP>,
) -> Option<usize>
    requires { (from ≤ length image.now) × (length image.now < word_range) }
    ensures { Pieced image.now from CAP out.old.items out.new.items result }
{
    let mut fields = Reader { image, at: from };
    while LONGEST_FIELD_LINE <= out.remaining_capacity() {
        let field = fields.next()?;
        put_field(out, field);
    }
    Some(fields.at)
}

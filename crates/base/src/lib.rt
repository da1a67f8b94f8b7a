// Bytes copied into a lent buffer, and parts of a lent slice.
#![tactic(auto)]

ghost use Rattle.std.specs.Prelude.{◌≡◌, ◌+◌, ◌≤◌, length, take, drop};
ghost use Rattle.base.specs.Buffers.{patch};

// Copies src into dst from index at on.
pub fn copy_at(dst: &mut [u8], at: usize, src: &[u8])
    requires { at + length src.now ≤ length dst.old }
    ensures { dst.new ≡ patch dst.old at src.now }
{
    for i in 0..src.len() {
        dst[at + i] = src[i];
    }
}

// The bytes from index at on, at most len of them.
pub fn part_of(xs: &[u8], at: usize, len: usize) -> &[u8]
    ensures { result.now ≡ take len (drop at xs.now) }
{
    let rest = &xs[at.min(xs.len())..];
    &rest[..len.min(rest.len())]
}

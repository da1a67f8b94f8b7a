// Numbers in bytes, read and written, and what 64 bits stand for.
#![tactic(auto)]

ghost use Rattle.std.specs.Prelude.{◌≡◌, ℕ, ◌+◌, ◌≤◌, ◌<◌, List, [], ◌∷◌, length};
ghost use Rattle.std.proofs.Common.{rules};
ghost use Rattle.std.specs.Float.Ieee.Scale.{finite};
ghost use Rattle.base.specs.Buffers.{patch};
ghost use Rattle.numbers.specs.Bytes.{byte_range, short_range, word_range, longest, byte, le16, le32, le64, le_bytes, bit, signed64, real64};
ghost use Rattle.numbers.specs.Same.{byte_same, le_same};

use base::{copy_at, part_of};
use std::num::f64_from_bits_with_nan;

// The most bytes that a number has.
const LONGEST: usize = 8;

// How many numbers a byte can hold, and how many two bytes can.
pub const BYTE_RANGE_U32: u32 = 256;

pub const SHORT_RANGE_U64: u64 = 65536;

// ---- a number of any width in a slice, its low byte first

// A number that stands in bytes.
pub trait LittleEndian: Copy {
    // How many bytes it has.
    const SIZE: usize;

    ghost SIZE: { ℕ };

    // The number that stands in bytes from an index on; those past the end count as 0.
    ghost le: { List ℕ → ℕ → Self };

    // The bytes that a number stands in.
    ghost bytes: { Self → List ℕ };

    // The number that stands in a slice from index at on.
    fn read(s: &[u8], at: usize) -> Self
        requires { at + SIZE ≤ length s.now }
        ensures { result ≡ le s.now at };

    // Writes the number into a slice from index at on.
    fn write(self, s: &mut [u8], at: usize)
        requires { at + SIZE ≤ length s.old }
        ensures { s.new ≡ patch s.old at (bytes self) };

    // The number at any index: bytes past the end count as 0.
    final fn read_padded(s: &[u8], at: usize) -> Self
        ensures { result ≡ le s.now at }
    {
        if at < s.len() && Self::SIZE <= s.len() - at {
            return Self::read(s, at);
        }
        read_ending(s, at)
    }

    ghost fits: { SIZE ≤ longest };

    // The same bytes are the same number.
    ghost same: { (s t : List ℕ) (a b : ℕ) → ((i : ℕ) → i < SIZE → byte s (a + i) ≡ byte t (b + i)) → le s a ≡ le t b };
}

// The same where a byte of the number is past the end: the bytes that are there, zeros behind them.
#[cold]
#[inline(never)]
fn read_ending<T: LittleEndian>(s: &[u8], at: usize) -> T
    ensures { result ≡ T.le s.now at }
{
    let mut bytes = [0; LONGEST];
    copy_at(&mut bytes, 0, part_of(s, at, T::SIZE));
    T::read(&bytes, 0)
}

impl LittleEndian for u8 {
    const SIZE: usize = 1;

    ghost SIZE = { 1 };

    ghost le = { byte };

    ghost bytes = { λ v. v ∷ [] };

    fn read(s: &[u8], at: usize) -> u8 {
        s[at]
    }

    fn write(self, s: &mut [u8], at: usize) {
        copy_at(s, at, &u8::to_le_bytes(self));
    }

    ghost fits = { Prim.search rules };

    ghost same = { byte_same };
}

#[tactic(auto, unfolding(crate::specs::Bytes::le_at, crate::specs::Bytes::le_bytes))]
impl LittleEndian for u16 {
    const SIZE: usize = 2;

    ghost SIZE = { 2 };

    ghost le = { le16 };

    ghost bytes = { le_bytes 2 };

    fn read(s: &[u8], at: usize) -> u16 {
        u16::from_le_bytes(s[at..at + Self::SIZE].try_into().unwrap())
    }

    fn write(self, s: &mut [u8], at: usize) {
        copy_at(s, at, &u16::to_le_bytes(self));
    }

    ghost fits = { Prim.search rules };

    ghost same = { le_same 2 };
}

#[tactic(auto, unfolding(crate::specs::Bytes::le_at, crate::specs::Bytes::le_bytes))]
impl LittleEndian for u32 {
    const SIZE: usize = 4;

    ghost SIZE = { 4 };

    ghost le = { le32 };

    ghost bytes = { le_bytes 4 };

    fn read(s: &[u8], at: usize) -> u32 {
        u32::from_le_bytes(s[at..at + Self::SIZE].try_into().unwrap())
    }

    fn write(self, s: &mut [u8], at: usize) {
        copy_at(s, at, &u32::to_le_bytes(self));
    }

    ghost fits = { Prim.search rules };

    ghost same = { le_same 4 };
}

#[tactic(auto, unfolding(crate::specs::Bytes::le_at, crate::specs::Bytes::le_bytes))]
impl LittleEndian for u64 {
    const SIZE: usize = 8;

    ghost SIZE = { 8 };

    ghost le = { le64 };

    ghost bytes = { le_bytes 8 };

    fn read(s: &[u8], at: usize) -> u64 {
        u64::from_le_bytes(s[at..at + Self::SIZE].try_into().unwrap())
    }

    fn write(self, s: &mut [u8], at: usize) {
        copy_at(s, at, &u64::to_le_bytes(self));
    }

    ghost fits = { Prim.search rules };

    ghost same = { le_same 8 };
}

// ---- the bits of a number, and what 64 bits stand for

// Bit p of a number is set.
#[tactic(auto, unfolding(crate::specs::Bytes::bit))]
pub fn is_set(number: usize, p: usize) -> bool
    requires { p < 64 }
    ensures { result ≡ bit number p }
{
    (number >> p) % 2 == 1
}

// Every pattern of a NaN gives the one NaN.
#[tactic(auto, unfolding(crate::specs::Bytes::real64))]
pub fn real_of_bits(b: u64) -> f64
    ensures { result ≡ real64 b }
{
    f64_from_bits_with_nan(b)
}

// The signed number that 64 bits stand for, in two's complement.
#[tactic(auto, unfolding(crate::specs::Bytes::signed64))]
pub fn int_of_bits(b: u64) -> i64
    ensures { result ≡ signed64 b }
{
    b.cast_signed()
}

// Neither a NaN nor an infinity.
#[tactic(auto, using(crate::proofs::Reals::finite_std))]
pub fn is_finite(x: f64) -> bool
    ensures { result ≡ finite x }
{
    x.is_finite()
}

// ---- by width

// The byte at an index.
pub fn read8(s: &[u8], at: usize) -> usize
    requires { at < length s.now }
    ensures { (result ≡ byte s.now at) × (result < byte_range) }
{
    usize::from(u8::read(s, at))
}

// The number of two bytes from index at on.
pub fn read16(s: &[u8], at: usize) -> usize
    requires { at + 2 ≤ length s.now }
    ensures { (result ≡ le16 s.now at) × (result < short_range) }
{
    usize::from(u16::read(s, at))
}

// Of four.
pub fn read32(s: &[u8], at: usize) -> usize
    requires { at + 4 ≤ length s.now }
    ensures { (result ≡ le32 s.now at) × (result < word_range) }
{
    u32::read(s, at) as usize
}

// The byte at any index.
pub fn byte_at(s: &[u8], at: usize) -> usize
    ensures { (result ≡ byte s.now at) × (result < byte_range) }
{
    usize::from(u8::read_padded(s, at))
}

// The number of two bytes from any index on.
pub fn at16(s: &[u8], at: usize) -> usize
    ensures { (result ≡ le16 s.now at) × (result < short_range) }
{
    usize::from(u16::read_padded(s, at))
}

// Of four.
pub fn at32(s: &[u8], at: usize) -> usize
    ensures { (result ≡ le32 s.now at) × (result < word_range) }
{
    u32::read_padded(s, at) as usize
}

// Bytes and decimal numbers, put behind those of a text that has room for them.
#![tactic(auto)]

ghost use Rattle.std.specs.Prelude.{ℕ, ◌≡◌, ◌+◌, ◌<◌, ◌≤◌, List, ◌++◌, length};
ghost use Rattle.arrayvec.specs.ArrayVec.{array_vec_len};
ghost use Rattle.decimal.specs.Decimal.{ten, digit, decimal, wide_decimal, most_digits, most_wide_digits, most_byte_digits};

use arrayvec::ArrayVec;

const TEN: u64 = 10;

// No number of 64 bits has more digits.
const MOST_DIGITS: usize = 20;

// A number: its digits, how many they are at most, and the number in 64 bits.
pub trait Number {
    ghost digits: { Self → List ℕ };

    ghost most: { ℕ };

    // The number in 64 bits: it has the same digits.
    fn widened(self) -> u64
        ensures same { wide_decimal result ≡ digits self }
        ensures few { length (digits self) ≤ most };
}

impl Number for u8 {
    ghost digits = { decimal };

    ghost most = { most_byte_digits };

    fn widened(self) -> u64 {
        u64::from(self)
    }
}

impl Number for u32 {
    ghost digits = { decimal };

    ghost most = { most_digits };

    fn widened(self) -> u64 {
        u64::from(self)
    }
}

impl Number for u64 {
    ghost digits = { wide_decimal };

    ghost most = { most_wide_digits };

    fn widened(self) -> u64 {
        self
    }
}

// Puts src behind out's bytes.
pub fn put_bytes<const CAP: usize>(out: &mut ArrayVec<u8, CAP>, src: &[u8])
    requires { array_vec_len out.old + length src.now ≤ CAP }
    ensures { out.new.items ≡ out.old.items ++ src.now }
{
    let _ = out.try_extend_from_slice(src);
}

// The byte of a digit.
fn digit(d: u64) -> u8
    requires { d < ten }
    ensures { result ≡ digit d }
{
    b'0' + d as u8
}

// Puts a number's digits behind out's bytes. They are found from the last one on, until the first is left.
fn put_digits<const CAP: usize>(out: &mut ArrayVec<u8, CAP>, n: u64)
    requires { array_vec_len out.old + length (wide_decimal n) ≤ CAP }
    ensures { out.new.items ≡ out.old.items ++ wide_decimal n }
{
    if n < TEN {
        out.push(digit(n));
        return;
    }
    let mut digits = [0u8; MOST_DIGITS];
    let mut at = MOST_DIGITS;
    let mut rest = n;
    while TEN <= rest {
        at -= 1;
        digits[at] = digit(rest % TEN);
        rest /= TEN;
    }
    out.push(digit(rest));
    put_bytes(out, &digits[at..]);
}

// Puts a number behind out's bytes.
pub fn put_number<N: Number, const CAP: usize>(out: &mut ArrayVec<u8, CAP>, n: N)
    requires { array_vec_len out.old + N.most ≤ CAP }
    ensures items { out.new.items ≡ out.old.items ++ N.digits n }
    ensures few { array_vec_len out.new ≤ array_vec_len out.old + N.most }
{
    put_digits(out, n.widened());
}

// A label, and a number behind it.
pub fn put_labelled<N: Number, const CAP: usize>(out: &mut ArrayVec<u8, CAP>, label: &[u8], n: N)
    requires { array_vec_len out.old + length label.now + N.most ≤ CAP }
    ensures items { out.new.items ≡ out.old.items ++ (label.now ++ N.digits n) }
    ensures few { array_vec_len out.new ≤ array_vec_len out.old + length label.now + N.most }
{
    put_bytes(out, label);
    put_number(out, n);
}

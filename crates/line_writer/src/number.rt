//! Numbers in decimal.

ghost use Rattle.std.specs.Prelude.{◌≡◌, ℕ, ◌+◌, ◌^◌, ◌<◌, ◌≤◌, List, ◌++◌, length};
ghost use Rattle.std.specs.Fmt.{decimal, signed_decimal};

use crate::line::{CAPACITY, Line};

/// A number that a line may have, in decimal.
pub trait Number: Copy {
    /// Its digits, after a minus sign if it is below zero.
    ghost text: { Self → List ℕ };

    /// How many bytes the longest text has.
    ghost most: { ℕ };

    /// Writes the number.
    fn put(self, line: &mut Line)
        requires { length line.old + most ≤ CAPACITY }
        ensures text { line.new ≡ text self ++ line.old }
        ensures at_most { length line.new ≤ length line.old + most };
}

#[tactic(auto, using(crate::proofs::Digits::digits_of_8_bits))]
impl Number for u8 {
    ghost text = { decimal };

    ghost most = { 3 };

    #[inline]
    fn put(self, line: &mut Line) {
        line.put_short(u32::from(self));
    }
}

#[tactic(auto, using(crate::proofs::Digits::digits_of_16_bits))]
impl Number for u16 {
    ghost text = { decimal };

    ghost most = { 5 };

    #[inline]
    fn put(self, line: &mut Line) {
        line.put_middle(u32::from(self));
    }
}

#[tactic(auto, using(crate::proofs::Digits::digits_of_32_bits))]
impl Number for u32 {
    ghost text = { decimal };

    ghost most = { 10 };

    #[inline]
    fn put(self, line: &mut Line) {
        line.put_digits(u64::from(self));
    }
}

#[tactic(auto, using(crate::proofs::Digits::digits_of_64_bits))]
impl Number for u64 {
    ghost text = { decimal };

    ghost most = { 20 };

    #[inline]
    fn put(self, line: &mut Line) {
        line.put_digits(self);
    }
}

#[tactic(auto, using(crate::proofs::Digits::digits_of_8_bits))]
impl Number for i8 {
    ghost text = { signed_decimal };

    ghost most = { 4 };

    #[inline]
    fn put(self, line: &mut Line) {
        line.put_short(u32::from(self.unsigned_abs()));
        if self < 0 {
            line.put_byte(b'-');
        }
    }
}

#[tactic(auto, using(crate::proofs::Digits::digits_of_128_bits))]
impl Number for i128 {
    ghost text = { signed_decimal };

    ghost most = { 40 };

    #[inline]
    fn put(self, line: &mut Line) {
        put_wide(line, self.unsigned_abs());
        if self < 0 {
            line.put_byte(b'-');
        }
    }
}

/// Writes the digits of a number: those past 64 bits one at a time.
#[tactic(auto, using(crate::proofs::Digits::digits_of_128_bits))]
#[inline]
pub(crate) fn put_wide(line: &mut Line, n: u128)
    requires { length line.old + 39 ≤ CAPACITY }
    ensures text { line.new ≡ decimal n ++ line.old }
    ensures at_most { length line.new ≤ length line.old + 39 }
{
    let mut left = n;
    while left > u128::from(u64::MAX) {
        line.put_byte(b'0' + (left % 10) as u8);
        left /= 10;
    }
    line.put_digits(left as u64);
}

impl Line {
    /// Writes a number in decimal.
    #[inline]
    pub fn put_number<N: Number>(&mut self, n: N)
        requires { length self.old + N.most ≤ CAPACITY }
        ensures text { self.new ≡ N.text n ++ self.old }
        ensures at_most { length self.new ≤ length self.old + N.most }
    {
        n.put(self);
    }
}

//! A text, read from its beginning.

ghost use Rattle.std.specs.Prelude.{◌≡◌, ◌+◌, ◌<◌, ◌∷◌, ◌++◌, decimal, OnSome, IfNone, IfSome, IsTrue, Some, slice_get, ◌↔◌};

use std::marker::Model;

/// The bytes of a text that are still to be read.
///
/// If a reading is refused with None, some of the bytes may have gone, unless a function says that
/// none has.
#[derive(Drop)]
pub(crate) struct Scanner<'t> {
    rest: &'t [u8],
}

// Clauses see the bytes that are still to be read.
impl<'t> Model for Scanner<'t> {
    ghost use Rattle.std.specs.Prelude.{ℕ, List};

    ghost Value = { List ℕ };

    ghost view = { λ scanner. scanner.rest.now };
}

impl<'t> Scanner<'t> {
    /// A text before anything of it is read.
    #[inline]
    pub(crate) fn new(text: &'t [u8]) -> Scanner<'t>
        ensures { result ≡ text.now }
    {
        Scanner { rest: text }
    }

    /// The bytes that are still to be read.
    #[inline]
    pub(crate) fn rest(&self) -> &[u8]
        ensures { result.now ≡ self.now }
    {
        self.rest
    }

    /// Whether this byte comes next.
    #[inline]
    pub(crate) fn is_next(&self, byte: u8) -> bool
        ensures { IsTrue result ↔ (slice_get self.now 0 ≡ Some byte) }
    {
        self.rest.first() == Some(&byte)
    }

    /// Reads this byte.
    #[inline]
    pub(crate) fn byte(&mut self, byte: u8) -> Option<()>
        ensures { OnSome result (self.old ≡ byte ∷ self.new) }
    {
        let (first, rest) = self.rest.split_first()?;
        if *first != byte {
            return None;
        }
        self.rest = rest;
        Some(())
    }

    /// Reads this text.
    #[inline]
    pub(crate) fn text(&mut self, text: &[u8]) -> Option<()>
        ensures { OnSome result (self.old ≡ text.now ++ self.new) }
    {
        self.rest = self.rest.strip_prefix(text)?;
        Some(())
    }

    /// Reads a digit, and gives its value. If none comes next, nothing is read.
    #[inline]
    fn digit(&mut self) -> Option<u8>
        ensures digit { IfSome result (λ digit. digit < 10) }
        ensures read { IfSome result (λ digit. self.old ≡ (48 + digit) ∷ self.new) }
        ensures stays { IfNone result (self.new ≡ self.old) }
    {
        let (first, rest) = self.rest.split_first()?;
        if !first.is_ascii_digit() {
            return None;
        }
        self.rest = rest;
        Some(*first - b'0')
    }

    /// Reads a number below 2^64 in decimal, without leading zeros. It ends before the first byte
    /// that is no digit, or after a zero that it begins with.
    #[inline]
    pub(crate) fn number(&mut self) -> Option<u64>
        ensures { IfSome result (λ number. self.old ≡ decimal number ++ self.new) }
    {
        let mut number = u64::from(self.digit()?);
        if number == 0 {
            return Some(number);
        }
        while let Some(digit) = self.digit() {
            number = number.checked_mul(10)?.checked_add(u64::from(digit))?;
        }
        Some(number)
    }
}

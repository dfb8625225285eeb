//! The line itself: bytes and text.

ghost use Rattle.std.specs.Prelude.{◌≡◌, ◌+◌, ◌-◌, ◌≤◌, [], ◌∷◌, ◌++◌, length, drop};

use std::marker::Model;

/// How many bytes a line may have.
pub const CAPACITY: usize = 512;

/// How many bytes of the scratch array stand before those of the longest line, so that four bytes
/// may always be written at once.
const SLACK: usize = 4;

/// A line of text of at most 512 bytes. Each piece is written before those that stand there.
#[derive(Debug, Drop)]
pub struct Line {
    scratch: [u8; SLACK + CAPACITY],
    start: usize,
}

// Clauses see the text that was written.
impl Model for Line {
    ghost use Rattle.std.specs.Prelude.{ℕ, ◌≤◌, List, drop};

    ghost Value = { List ℕ };

    ghost view = { λ line. drop line.start line.scratch };

    ghost invariant = { λ line. (4 ≤ line.start) × (line.start ≤ 516) };
}

impl Default for Line {
    ghost is_default = { λ line. line ≡ [] };

    fn default() -> Line {
        Line::new()
    }
}

impl Line {
    /// A line with no text.
    #[inline]
    pub fn new() -> Line
        ensures { result ≡ [] }
    {
        Line {
            scratch: [0; SLACK + CAPACITY],
            start: SLACK + CAPACITY,
        }
    }

    /// Takes the text away.
    #[inline]
    pub fn clear(&mut self)
        ensures { self.new ≡ [] }
    {
        self.start = SLACK + CAPACITY;
    }

    /// The text.
    #[inline]
    pub fn as_bytes(&self) -> &[u8]
        ensures text { result.now ≡ self.now }
        ensures at_most { length result.now ≤ CAPACITY }
    {
        &self.scratch[self.start..]
    }

    /// Writes a byte.
    #[inline]
    pub fn put_byte(&mut self, byte: u8)
        requires { length self.old + 1 ≤ CAPACITY }
        ensures text { self.new ≡ byte ∷ self.old }
        ensures grows { length self.new ≡ length self.old + 1 }
    {
        let start = self.start - 1;
        self.scratch[start] = byte;
        self.start = start;
    }

    /// Writes two bytes.
    #[inline]
    pub fn put_pair(&mut self, first: u8, second: u8)
        requires { length self.old + 2 ≤ CAPACITY }
        ensures text { self.new ≡ first ∷ second ∷ self.old }
        ensures grows { length self.new ≡ length self.old + 2 }
    {
        self.put_byte(second);
        self.put_byte(first);
    }

    /// Writes the bytes of a text.
    #[inline]
    pub(crate) fn put_bytes(&mut self, text: &[u8])
        requires { length self.old + length text.now ≤ CAPACITY }
        ensures text { self.new ≡ text.now ++ self.old }
        ensures grows { length self.new ≡ length self.old + length text.now }
    {
        let start = self.start - text.len();
        self.scratch[start..self.start].copy_from_slice(text);
        self.start = start;
    }

    /// Writes a text.
    #[inline]
    pub fn put_text(&mut self, text: &str)
        requires { length self.old + length text.now ≤ CAPACITY }
        ensures text { self.new ≡ text.now ++ self.old }
        ensures grows { length self.new ≡ length self.old + length text.now }
    {
        self.put_bytes(text.as_bytes());
    }

    /// Writes the last `count` of four bytes. The others are written too, where the next text goes.
    #[inline]
    pub(crate) fn put_last(&mut self, bytes: [u8; 4], count: usize)
        requires few { count ≤ 4 }
        requires room { length self.old + count ≤ CAPACITY }
        ensures text { self.new ≡ drop (4 - count) bytes ++ self.old }
        ensures grows { length self.new ≡ length self.old + count }
    {
        let end = self.start;
        self.scratch[end - 1] = bytes[3];
        self.scratch[end - 2] = bytes[2];
        self.scratch[end - 3] = bytes[1];
        self.scratch[end - 4] = bytes[0];
        self.start = end - count;
    }
}

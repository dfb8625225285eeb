//! Numbers and addresses at a place of a slice.

ghost use Rattle.std.specs.Prelude.{◌≡◌, ◌+◌, ◌≤◌, length, slice_range};
ghost use Rattle.frame_reader.specs.Frame.{word};

use byteorder::{BigEndian, ByteOrder};

/// The number in the two bytes from place `at`, the high byte first.
#[tactic(auto, unfolding(crate::specs::Frame::word))]
pub fn word_at(bytes: &[u8], at: usize) -> u16
    requires { at + 2 ≤ length bytes.now }
    ensures { result ≡ word bytes.now at }
{
    BigEndian::read_u16(&bytes[at..])
}

/// The IPv4 address in the four bytes from place `at`.
pub fn address_at(bytes: &[u8], at: usize) -> [u8; 4]
    requires { at + 4 ≤ length bytes.now }
    ensures { result ≡ slice_range bytes.now at (at + 4) }
{
    [bytes[at], bytes[at + 1], bytes[at + 2], bytes[at + 3]]
}

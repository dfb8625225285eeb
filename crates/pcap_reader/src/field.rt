//! The numbers in a capture's headers.

ghost use Rattle.std.specs.Prelude.{◌≡◌, ◌≤◌, length};
ghost use Rattle.pcap_reader.specs.Field.{number_in};

use crate::format::Endian;
use byteorder::{BigEndian, ByteOrder, LittleEndian};

/// The number in the first two bytes.
pub(crate) fn u16_in(order: Endian, bytes: &[u8]) -> u16
    requires { 2 ≤ length bytes.now }
    ensures { result ≡ number_in order 2 bytes.now }
{
    match order {
        Endian::Big => BigEndian::read_u16(bytes),
        Endian::Little => LittleEndian::read_u16(bytes),
    }
}

/// The number in the first four bytes.
pub(crate) fn u32_in(order: Endian, bytes: &[u8]) -> u32
    requires { 4 ≤ length bytes.now }
    ensures { result ≡ number_in order 4 bytes.now }
{
    match order {
        Endian::Big => BigEndian::read_u32(bytes),
        Endian::Little => LittleEndian::read_u32(bytes),
    }
}

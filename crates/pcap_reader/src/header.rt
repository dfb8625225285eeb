//! The header of a file.

ghost use Rattle.std.specs.Prelude.{◌≡◌, ◌≤◌, length, OnOk};
ghost use Rattle.pcap_reader.specs.Header.{header_of, version_and_link, format_of};

use crate::fault::CaptureFault;
use crate::field::{u16_in, u32_in};
use crate::format::{Endian, Format};
use era_unfold::Unit;

/// The bytes of a file's header.
pub(crate) const FILE_HEADER: usize = 24;

const MICRO_MAGIC: u32 = 0xa1b2_c3d4;

const NANO_MAGIC: u32 = 0xa1b2_3c4d;

/// The format that the first four bytes name.
fn format_in(bytes: &[u8]) -> Option<Format>
    requires { 4 ≤ length bytes.now }
    ensures { result ≡ format_of bytes.now }
{
    let big = u32_in(Endian::Big, bytes);
    let little = u32_in(Endian::Little, bytes);
    if big == MICRO_MAGIC {
        Some(Format {
            order: Endian::Big,
            unit: Unit::Micro,
        })
    } else if big == NANO_MAGIC {
        Some(Format {
            order: Endian::Big,
            unit: Unit::Nano,
        })
    } else if little == MICRO_MAGIC {
        Some(Format {
            order: Endian::Little,
            unit: Unit::Micro,
        })
    } else if little == NANO_MAGIC {
        Some(Format {
            order: Endian::Little,
            unit: Unit::Nano,
        })
    } else {
        None
    }
}

/// Whether the version is 2.4 and the link type 1.
fn check_version(format: Format, bytes: &[u8]) -> Result<Format, CaptureFault>
    requires { 24 ≤ length bytes.now }
    ensures { result ≡ version_and_link format bytes.now }
{
    if u16_in(format.order, &bytes[4..]) != 2 {
        return Err(CaptureFault::Version);
    }
    if u16_in(format.order, &bytes[6..]) != 4 {
        return Err(CaptureFault::Version);
    }
    if u32_in(format.order, &bytes[20..]) != 1 {
        return Err(CaptureFault::Link);
    }
    Ok(format)
}

/// The format of a capture that begins with these bytes, or the fault of its header.
#[tactic(auto, unfolding(crate::specs::Header::header_of))]
pub(crate) fn header(bytes: &[u8]) -> Result<Format, CaptureFault>
    ensures value { result ≡ header_of bytes.now }
    ensures long { OnOk result (24 ≤ length bytes.now) }
{
    if bytes.len() < FILE_HEADER {
        return Err(CaptureFault::TornHeader);
    }
    match format_in(bytes) {
        None => Err(CaptureFault::Magic),
        Some(format) => check_version(format, bytes),
    }
}

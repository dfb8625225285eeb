//! What a frame's NTP packet is read as.

use crate::header::NtpView;
use frame_reader::kinds::Datagram;

/// An NTP packet: a datagram, and the header at the start of its payload.
#[derive(Debug, Drop)]
pub struct Packet<'a> {
    /// The datagram, from or to port 123.
    pub datagram: Datagram<'a>,
    /// The first 48 bytes of its payload.
    pub header: NtpView<'a>,
}

//! What a frame is read as.

/// A UDP datagram in an IPv4 packet, as a frame holds it (RFC 768, RFC 791).
#[derive(Clone, Copy, Debug, PartialEq, Eq)]
pub struct Datagram<'a> {
    /// The IPv4 address that sent it.
    pub source: [u8; 4],
    /// The IPv4 address that it is for.
    pub destination: [u8; 4],
    /// The UDP port that sent it.
    pub source_port: u16,
    /// The UDP port that it is for.
    pub destination_port: u16,
    /// The bytes after the UDP header, up to the end that the UDP length gives.
    pub payload: &'a [u8],
}

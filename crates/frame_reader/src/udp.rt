//! What stands in a packet after its IPv4 header.

ghost use Rattle.std.specs.Prelude.{◌≡◌, ◌≤◌, length, Some, None, MatchResult};
ghost use Rattle.frame_reader.specs.Frame.{fields_at, fields_of, segment_skip};

use crate::bytes::{address_at, word_at};
use crate::kinds::Datagram;
use crate::skip::Skip;

/// The UDP datagram in a segment of this packet, if its length fits (RFC 768).
#[inline(always)]
#[tactic(auto, unfolding(crate::specs::Frame::segment_skip, crate::specs::Frame::fields_at))]
pub fn segment_datagram<'a>(packet: &'a [u8], segment: &'a [u8]) -> Result<Datagram<'a>, Skip>
    requires { 20 ≤ length packet.now }
    ensures { MatchResult result
        (λ d. (segment_skip segment.now ≡ None) × (fields_of d ≡ fields_at packet.now segment.now))
        (λ s. segment_skip segment.now ≡ Some s) }
{
    if segment.len() < 8 {
        return Err(Skip::UdpLength);
    }
    let length = usize::from(word_at(segment, 4));
    if length < 8 || segment.len() < length {
        return Err(Skip::UdpLength);
    }
    Ok(Datagram {
        source: address_at(packet, 12),
        destination: address_at(packet, 16),
        source_port: word_at(segment, 0),
        destination_port: word_at(segment, 2),
        payload: &segment[8..length],
    })
}

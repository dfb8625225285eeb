//! The IPv4 header.

ghost use Rattle.std.specs.Prelude.{◌≡◌, ◌≤◌, length, Some, None, MatchResult};
ghost use Rattle.frame_reader.specs.Frame.{packet_skip, segment_of};

use crate::bytes::word_at;
use crate::skip::Skip;

/// The more-fragments flag and the fragment offset, in the word that also has the two other flags.
const FRAGMENT: u16 = 0x3fff;
/// The protocol number of UDP.
const UDP: u8 = 17;

/// What stands after the header up to the total length, if that is an unfragmented UDP datagram.
#[inline(always)]
#[tactic(auto, unfolding(crate::specs::Frame::packet_skip, crate::specs::Frame::segment_of))]
pub fn segment(packet: &[u8]) -> Result<&[u8], Skip>
    ensures { MatchResult result
        (λ s. (packet_skip packet.now ≡ None) × (s.now ≡ segment_of packet.now)
        × (20 ≤ length packet.now))
        (λ s. packet_skip packet.now ≡ Some s) }
{
    if packet.len() < 20 {
        return Err(Skip::Short);
    }
    let header_length = 4 * usize::from(packet[0] & 0x0f);
    let total_length = usize::from(word_at(packet, 2));
    if packet[0] >> 4 != 4 || header_length < 20 || total_length < header_length {
        return Err(Skip::IpHeader);
    }
    if packet.len() < total_length {
        return Err(Skip::Short);
    }
    if word_at(packet, 6) & FRAGMENT != 0 {
        return Err(Skip::Fragment);
    }
    if packet[9] != UDP {
        return Err(Skip::OtherProtocol);
    }
    Ok(&packet[header_length..total_length])
}

//! The whole frame.

ghost use Rattle.std.specs.Prelude.{◌≡◌, Ok, Err, Some, MatchResult, IfOk, IfErr};
ghost use Rattle.frame_reader.specs.Frame.{fields_of, datagram_of, skip_of, HoldsDatagram};

use crate::ethernet::packet;
use crate::ipv4::segment;
use crate::kinds::Datagram;
use crate::skip::Skip;
use crate::udp::segment_datagram;

/// The UDP datagram that an Ethernet II frame holds (RFC 768, RFC 791, IEEE 802.1Q), or the first
/// reason to skip the frame. The payload is the UDP length less the 8 bytes of the UDP header; what
/// follows it is padding. The frame may have any length.
#[inline(always)]
#[tactic(auto, unfolding(crate::specs::Frame::datagram_of, crate::specs::Frame::skip_of))]
pub fn datagram(frame: &[u8]) -> Result<Datagram<'_>, Skip>
    ensures exact { MatchResult result
        (λ d. datagram_of frame.now ≡ Ok (fields_of d))
        (λ s. datagram_of frame.now ≡ Err s) }
    // What is read is the joined list of its parts.
    ensures holds { IfOk result (λ d. HoldsDatagram frame.now (fields_of d)) }
    // Which skip it is.
    ensures skip { IfErr result (λ s. skip_of frame.now ≡ Some s) }
{
    let packet = packet(frame)?;
    let segment = segment(packet)?;
    segment_datagram(packet, segment)
}

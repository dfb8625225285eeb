//! The NTP packet of a frame.

ghost use Rattle.std.specs.Prelude.{◌≡◌, None, Some, MatchOption};
ghost use Rattle.ntp_packet.specs.Packet.{packet_of, packet_shown};

use crate::header::view;
use crate::kinds::Packet;
use frame_reader::datagram;

/// The port of NTP, at the server's end (RFC 5905, section 7.2).
pub const NTP_PORT: u16 = 123;

/// The NTP packet that a frame holds: a datagram from or to port 123 with a payload of at least 48
/// bytes (RFC 5905, section 7.2). `None` comes for any other frame. It takes no memory.
#[inline(always)]
#[tactic(auto, unfolding(crate::specs::Packet::packet_of))]
pub fn packet(frame: &[u8]) -> Option<Packet<'_>>
    ensures exact { MatchOption result
        (packet_of frame.now ≡ None)
        (λ packet. packet_of frame.now ≡ Some (packet_shown packet)) }
{
    let datagram = datagram(frame).ok()?;
    if datagram.source_port != NTP_PORT && datagram.destination_port != NTP_PORT {
        return None;
    }
    let header = view(datagram.payload)?;
    Some(Packet { datagram, header })
}

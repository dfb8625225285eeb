//! The Ethernet II header, with at most one tag.

ghost use Rattle.std.specs.Prelude.{◌≡◌, Some, None, MatchResult};
ghost use Rattle.frame_reader.specs.Frame.{link_skip, packet_of};

use crate::bytes::word_at;
use crate::skip::Skip;

/// The type of a tag (IEEE 802.1Q).
const TAG: u16 = 0x8100;

/// The type of IPv4 (RFC 894).
const IPV4: u16 = 0x0800;

/// What stands after the type, if that is IPv4.
#[inline(always)]
#[tactic(auto, unfolding(crate::specs::Frame::link_skip, crate::specs::Frame::packet_of))]
pub fn packet(frame: &[u8]) -> Result<&[u8], Skip>
    ensures { MatchResult result
        (λ p. (link_skip frame.now ≡ None) × (p.now ≡ packet_of frame.now))
        (λ s. link_skip frame.now ≡ Some s) }
{
    if frame.len() < 14 {
        return Err(Skip::Short);
    }
    let start = if word_at(frame, 12) == TAG { 18 } else { 14 };
    if frame.len() < start {
        return Err(Skip::Short);
    }
    if word_at(frame, start - 2) != IPV4 {
        return Err(Skip::OtherType);
    }
    Ok(&frame[start..])
}

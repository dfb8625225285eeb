//! Why a reply gives no exchange.

ghost use Rattle.std.specs.Prelude.{◌≡◌, pos, None, Some, MatchResult};
ghost use Rattle.ntp_packet.specs.Header.{root_distance_of};
ghost use Rattle.pairing.specs.Refusal.{refusal_of};

use ntp_packet::NtpView;

/// Why a reply gives no exchange, in the order in which the reasons are tried.
#[derive(Clone, Copy)]
pub(crate) enum Refusal {
    /// The version isn't 4.
    Version,
    /// The server's clock is unsynchronized.
    Leap,
    /// The stratum isn't 1 to 15.
    Stratum,
    /// The precision is above 16.
    Precision,
    /// The origin, receive or transmit timestamp is zero.
    ZeroStamp,
    /// No request has the origin timestamp as its transmit timestamp.
    NoRequest,
    /// Two requests or more have it.
    Ambiguous,
}

/// The root distance of a reply in ticks, or the first reason that its header gives to refuse it.
#[inline(always)]
#[tactic(auto, unfolding(crate::specs::Refusal::refusal_of))]
pub(crate) fn accepted_distance(header: &NtpView<'_>) -> Result<u64, Refusal>
    ensures exact { MatchResult result
        (λ distance. (refusal_of header.now ≡ None)
        × (root_distance_of header.now ≡ Some (pos distance)))
        (λ refusal. refusal_of header.now ≡ Some refusal) }
{
    if header.version() != 4 {
        return Err(Refusal::Version);
    }
    if header.leap() == 3 {
        return Err(Refusal::Leap);
    }
    if !(1..=15).contains(&header.stratum()) {
        return Err(Refusal::Stratum);
    }
    let Some(distance) = header.root_distance() else {
        return Err(Refusal::Precision);
    };
    if header.origin() == 0 || header.receive() == 0 || header.transmit() == 0 {
        return Err(Refusal::ZeroStamp);
    }
    Ok(distance)
}

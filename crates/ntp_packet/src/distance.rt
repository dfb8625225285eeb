//! The root distance that a sender announces.

ghost use Rattle.std.specs.Prelude.{◌≡◌, ◌^◌, ◌<◌, ◌≤◌, ◌↔◌, ◌<ℤ◌, ◌≤ℤ◌, pos, IsNone, IfSome};
ghost use Rattle.std.specs.Option.{option_map};
ghost use Rattle.ntp_packet.specs.Header.{precision_of, precision_ticks_of, root_distance_of};

use crate::NtpView;

/// Ticks in a unit of the short format, 2^-16 s.
const UNIT_TICKS: u64 = 65536;

/// The greatest precision with a root distance, in log2 seconds: 18 hours.
const MAX_PRECISION: i8 = 16;

#[tactic(auto, unfolding(crate::specs::Header::root_distance_of))]
impl NtpView<'_> {
    /// The root distance that the sender announces, in ticks of 2^-32 s: half its root delay, its
    /// root dispersion and its precision, which counts as one tick from -32 downwards (after RFC
    /// 5905, section 11.2). `None` comes for a precision above 16 and no other.
    pub fn root_distance(&self) -> Option<u64>
        ensures distance { option_map pos result ≡ root_distance_of self.now }
        ensures none { IsNone result ↔ (pos 16 <ℤ precision_of self.now) }
        ensures least { IfSome result (λ ticks. 1 ≤ ticks) }
        ensures greatest { IfSome result (λ ticks. ticks < 2 ^ 50) }
    {
        let precision = self.precision();
        if precision > MAX_PRECISION {
            return None;
        }
        let half_delay = u64::from(self.root_delay()) * (UNIT_TICKS / 2);
        let dispersion = u64::from(self.root_dispersion()) * UNIT_TICKS;
        Some(half_delay + dispersion + precision_ticks(precision))
    }
}

/// A precision of log2 seconds in ticks, and at least one tick.
fn precision_ticks(precision: i8) -> u64
    requires { precision ≤ℤ pos 16 }
    ensures ticks { result ≡ precision_ticks_of precision }
{
    if precision < -31 {
        1
    } else {
        1 << (precision + 32)
    }
}

//! Ticks as Unix seconds.

ghost use Rattle.std.specs.Prelude.{◌≡◌, ◌^◌, ◌<◌};
ghost use Rattle.audit_text.specs.Second.{second_of};

use era_unfold::TICKS_PER_SECOND;

/// The Unix second of a tick of 2^-32 s since 1970.
pub fn second_of(tick: i128) -> u32
    requires { second_of tick < 2 ^ 32 }
    ensures { result ≡ second_of tick }
{
    (tick.unsigned_abs() / TICKS_PER_SECOND) as u32
}

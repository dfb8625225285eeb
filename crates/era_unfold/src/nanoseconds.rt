//! Nanoseconds as ticks.

ghost use Rattle.std.specs.Prelude.{◌≡◌, ◌^◌, pos, ◌<ℤ◌};
ghost use Rattle.era_unfold.specs.Nanoseconds.{ticks_down, ticks_up};

use crate::unit::NANOSECONDS_PER_SECOND;

/// How many ticks one second has: 2^32. It has the width in which ticks are multiplied.
pub const TICKS_PER_SECOND: u128 = 1 << 32;

/// `n` nanoseconds in ticks of 2^-32 second, rounded down.
pub fn ns_down(n: u64) -> i128
    ensures ticks { result ≡ pos (ticks_down n) }
    ensures in_range { result <ℤ pos (2 ^ 67) }
{
    (((n as u128) << 32) / NANOSECONDS_PER_SECOND as u128) as i128
}

/// `n` nanoseconds in ticks of 2^-32 second, rounded up.
pub fn ns_up(n: u64) -> i128
    ensures ticks { result ≡ pos (ticks_up n) }
    ensures in_range { result <ℤ pos (2 ^ 67) }
{
    ((n as u128) << 32).div_ceil(NANOSECONDS_PER_SECOND as u128) as i128
}

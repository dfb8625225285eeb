//! The window of a capture's record, in ticks.

ghost use Rattle.std.specs.Prelude.{◌≡◌, ◌+◌, ◌-◌, ◌*◌, ◌/◌, ◌^◌, ◌<◌, ◌≤◌, pos, ◌≤ℤ◌, ◌<ℤ◌};
ghost use Rattle.era_unfold.specs.Window.{per_second, window_low, window_high, ticks_per_second};

use crate::unit::{MICROSECONDS_PER_SECOND, NANOSECONDS_PER_SECOND, Unit};

/// The first tick of the window of a record captured at `sec` seconds and `sub` units: the greatest
/// whole tick that is not after that moment. Ticks of 2^-32 second, counted from
/// 1970-01-01T00:00:00Z. `sub` is less than a second.
pub fn low(sec: u32, sub: u32, unit: Unit) -> i128
    requires { sub < per_second unit }
    ensures window { result ≡ pos (window_low unit sec sub) }

    // The seconds have 32 bits.
    ensures in_range { result <ℤ pos (2 ^ 64) }
{
    (whole_seconds(sec) + ticks_down(sub, unit)) as i128
}

/// The last tick of the window of a record captured at `sec` seconds and `sub` units: the least
/// whole tick that is not before the next unit begins. Ticks of 2^-32 second, counted from
/// 1970-01-01T00:00:00Z. `sub` is less than a second.
pub fn high(sec: u32, sub: u32, unit: Unit) -> i128
    requires { sub < per_second unit }
    ensures window { result ≡ pos (window_high unit sec sub) }
    ensures after_low { pos (window_low unit sec sub) <ℤ result }

    // The last window of all ends where the seconds pass 32 bits.
    ensures in_range { result ≤ℤ pos (2 ^ 64) }
{
    whole_seconds(sec) as i128 + ticks_up(sub + 1, unit) as i128
}

/// The ticks of whole seconds.
fn whole_seconds(sec: u32) -> u64
    ensures { result ≡ sec * ticks_per_second }
{
    (sec as u64) << 32
}

/// The ticks of a part of a second, rounded down. Each unit has its own division, so that the
/// divisor is a constant.
fn ticks_down(sub: u32, unit: Unit) -> u64
    requires { sub < per_second unit }
    ensures value { result ≡ sub * ticks_per_second / per_second unit }
    ensures part_of_a_second { result < ticks_per_second }
{
    let scaled = (sub as u64) << 32;
    match unit {
        Unit::Micro => scaled / MICROSECONDS_PER_SECOND as u64,
        Unit::Nano => scaled / NANOSECONDS_PER_SECOND as u64,
    }
}

/// The ticks of at most one second, rounded up.
fn ticks_up(sub: u32, unit: Unit) -> u64
    requires { sub ≤ per_second unit }
    ensures value { result ≡ (sub * ticks_per_second + (per_second unit - 1)) / per_second unit }
    ensures at_most_a_second { result ≤ ticks_per_second }
{
    let scaled = (sub as u64) << 32;
    match unit {
        Unit::Micro => {
            (scaled + (MICROSECONDS_PER_SECOND as u64 - 1)) / MICROSECONDS_PER_SECOND as u64
        }
        Unit::Nano => {
            (scaled + (NANOSECONDS_PER_SECOND as u64 - 1)) / NANOSECONDS_PER_SECOND as u64
        }
    }
}

//! Nanoseconds and ticks of 2^-32 s as milliseconds.

ghost use Rattle.std.specs.Prelude.{◌≡◌, ◌+◌, ◌^◌, ◌<◌, ◌≤◌, ◌++◌, length, pos, neg_ℤ, if◌then◌else◌};
ghost use Rattle.line_writer.specs.Millisecond as spec;
ghost use Rattle.line_writer.specs.Millisecond.{milliseconds, nanosecond_above, nanosecond_below, signed_milliseconds};

use crate::line::{CAPACITY, Line};
use crate::number::put_wide;
use era_unfold::{NANOSECONDS_PER_SECOND, TICKS_PER_SECOND};

/// How many nanoseconds a second has.
pub(crate) const PER_SECOND: u128 = NANOSECONDS_PER_SECOND as u128;

/// How many nanoseconds a millisecond has.
const NANOSECONDS_PER_MILLISECOND: u128 = 1_000_000;

/// A length in whole nanoseconds that isn't longer than so many ticks.
#[tactic(auto, using(crate::proofs::Parts::shorter_by_parts))]
pub fn shorter(ticks: u128) -> u128
    requires { ticks ≤ 2 ^ 127 }
    ensures exact { result ≡ spec.shorter ticks }
    ensures fits { result < 2 ^ 127 }
{
    let part = ticks % TICKS_PER_SECOND * PER_SECOND / TICKS_PER_SECOND;
    ticks / TICKS_PER_SECOND * PER_SECOND + part
}

/// A length in whole nanoseconds that isn't shorter than so many ticks.
#[tactic(auto, using(crate::proofs::Parts::longer_by_parts))]
pub fn longer(ticks: u128) -> u128
    requires { ticks ≤ 2 ^ 127 }
    ensures exact { result ≡ spec.longer ticks }
    ensures fits { result < 2 ^ 127 }
{
    let part = ticks % TICKS_PER_SECOND * PER_SECOND;
    ticks / TICKS_PER_SECOND * PER_SECOND + (part + (TICKS_PER_SECOND - 1)) / TICKS_PER_SECOND
}

/// Writes nanoseconds as milliseconds.
pub(crate) fn put_milliseconds(line: &mut Line, n: u128)
    requires { length line.old + 46 ≤ CAPACITY }
    ensures text { line.new ≡ milliseconds n ++ line.old }
    ensures at_most { length line.new ≤ length line.old + 46 }
{
    line.put_six_digits((n % NANOSECONDS_PER_MILLISECOND) as u32);
    line.put_byte(b'.');
    put_wide(line, n / NANOSECONDS_PER_MILLISECOND);
}

/// Writes nanoseconds, which are below zero if `negative` is true, as milliseconds.
fn put_signed(line: &mut Line, negative: bool, n: u128)
    requires { length line.old + 47 ≤ CAPACITY }
    ensures text { line.new ≡
        signed_milliseconds (if negative then neg_ℤ (pos n) else pos n) ++ line.old }
    ensures at_most { length line.new ≤ length line.old + 47 }
{
    put_milliseconds(line, n);
    if negative && n > 0 {
        line.put_byte(b'-');
    }
}

/// Writes the low end of a range of ticks as milliseconds, rounded down.
pub(crate) fn put_low(line: &mut Line, tick: i128)
    requires { length line.old + 47 ≤ CAPACITY }
    ensures text { line.new ≡ signed_milliseconds (nanosecond_below tick) ++ line.old }
    ensures at_most { length line.new ≤ length line.old + 47 }
{
    let ticks = tick.unsigned_abs();
    if tick < 0 {
        put_signed(line, true, longer(ticks));
    } else {
        put_signed(line, false, shorter(ticks));
    }
}

/// Writes the high end of a range of ticks as milliseconds, rounded up.
pub(crate) fn put_high(line: &mut Line, tick: i128)
    requires { length line.old + 47 ≤ CAPACITY }
    ensures text { line.new ≡ signed_milliseconds (nanosecond_above tick) ++ line.old }
    ensures at_most { length line.new ≤ length line.old + 47 }
{
    let ticks = tick.unsigned_abs();
    if tick < 0 {
        put_signed(line, true, shorter(ticks));
    } else {
        put_signed(line, false, longer(ticks));
    }
}

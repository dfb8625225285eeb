//! Ticks of 2^-32 s of the Unix epoch as dates and times of day in UTC, at a whole nanosecond.

ghost use Rattle.std.specs.Prelude.{◌≡◌, ◌+◌, ◌^◌, ◌<◌, ◌≤◌, ◌++◌, length};
ghost use Rattle.line_writer.specs.Moment.{moment_above, moment_below, moment_or_tick, moment_text, part_text, second_of};

use crate::date::put_clock;
use crate::line::{CAPACITY, Line};
use crate::millisecond::{PER_SECOND, longer, shorter};
use crate::number::put_wide;

/// How many Unix seconds are shown as a date: those of 32 bits.
const SECONDS: u128 = 1 << 32;

/// Writes a part of a second in nanoseconds.
fn put_part(line: &mut Line, part: u32)
    requires small { part < 10 ^ 9 }
    requires room { length line.old + 10 ≤ CAPACITY }
    ensures text { line.new ≡ part_text part ++ line.old }
    ensures at_most { length line.new ≤ length line.old + 10 }
{
    if part > 0 {
        line.put_nine_digits(part);
        line.put_byte(b'.');
    }
}

/// Writes a nanosecond of the Unix epoch.
fn put_moment(line: &mut Line, n: u128)
    requires second { second_of n < 2 ^ 32 }
    requires room { length line.old + 30 ≤ CAPACITY }
    ensures text { line.new ≡ moment_text n ++ line.old }
    ensures at_most { length line.new ≤ length line.old + 30 }
{
    line.put_byte(b'Z');
    put_part(line, (n % PER_SECOND) as u32);
    put_clock(line, (n / PER_SECOND) as u32);
}

/// Writes a tick that isn't before the Unix epoch, as this nanosecond.
fn put_moment_or_tick(line: &mut Line, tick: u128, n: u128)
    requires { length line.old + 40 ≤ CAPACITY }
    ensures text { line.new ≡ moment_or_tick tick n ++ line.old }
    ensures at_most { length line.new ≤ length line.old + 40 }
{
    if n / PER_SECOND < SECONDS {
        put_moment(line, n);
    } else {
        put_wide(line, tick);
    }
}

/// Writes a tick by the nanosecond at or below it.
pub(crate) fn put_moment_below(line: &mut Line, tick: i128)
    requires { length line.old + 40 ≤ CAPACITY }
    ensures text { line.new ≡ moment_below tick ++ line.old }
    ensures at_most { length line.new ≤ length line.old + 40 }
{
    if tick < 0 {
        line.put_number(tick);
    } else {
        let ticks = tick.unsigned_abs();
        put_moment_or_tick(line, ticks, shorter(ticks));
    }
}

/// Writes a tick by the nanosecond at or above it.
pub(crate) fn put_moment_above(line: &mut Line, tick: i128)
    requires { length line.old + 40 ≤ CAPACITY }
    ensures text { line.new ≡ moment_above tick ++ line.old }
    ensures at_most { length line.new ≤ length line.old + 40 }
{
    if tick < 0 {
        line.put_number(tick);
    } else {
        let ticks = tick.unsigned_abs();
        put_moment_or_tick(line, ticks, longer(ticks));
    }
}

//! Offset and delay of an exchange.

ghost use Rattle.std.specs.Prelude.{◌≡◌, ◌≤◌, ◌^◌, pos, ◌-ℤ◌, ◌≤ℤ◌, unsigned_abs};
ghost use Rattle.sample_interval.specs.Exchange.{IsOfSomeClaim};
ghost use Rattle.sample_interval.specs.OnWire.{offset_doubled, delay_of, half_down, half_up, offset_from, offset_to, delay_from, delay_to};

use crate::window::{reply_window, request_window};
use pairing::Exchange;

/// The offset of the server's clock from the client's, as an interval of whole ticks (RFC 5905,
/// section 8: `((T2 - T1) + (T3 - T4)) / 2`), rounded outwards.
///
/// `reading` is how far a record time may be from the clock's reading: from 0 to 2^32 ticks.
#[tactic(auto, using(crate::proofs::NoOverflow::kept))]
pub fn offset(x: &Exchange, reading: i128) -> (i128, i128)
    requires exchange { IsOfSomeClaim x.now }
    requires from_zero { pos 0 ≤ℤ reading }
    requires at_most_a_second { reading ≤ℤ pos (2 ^ 32) }
    ensures from { result.0 ≡ offset_from x.now reading }
    ensures to { result.1 ≡ offset_to x.now reading }
{
    let request = request_window(x, reading);
    let reply = reply_window(x, reading);
    let least = doubled_offset(request.end, x.t2, x.t3, reply.end);
    let greatest = doubled_offset(request.start, x.t2, x.t3, reply.start);
    (halved_down(least), halved_up(greatest))
}

/// The round-trip delay, as an interval of ticks (RFC 5905, section 8: `(T4 - T1) - (T3 - T2)`).
///
/// `reading` is how far a record time may be from the clock's reading: from 0 to 2^32 ticks.
#[tactic(auto, using(crate::proofs::NoOverflow::kept))]
pub fn delay(x: &Exchange, reading: i128) -> (i128, i128)
    requires exchange { IsOfSomeClaim x.now }
    requires from_zero { pos 0 ≤ℤ reading }
    requires at_most_a_second { reading ≤ℤ pos (2 ^ 32) }
    ensures from { result.0 ≡ delay_from x.now reading }
    ensures to { result.1 ≡ delay_to x.now reading }
{
    let request = request_window(x, reading);
    let reply = reply_window(x, reading);
    (
        round_trip(request.end, x.t2, x.t3, reply.start),
        round_trip(request.start, x.t2, x.t3, reply.end),
    )
}

/// Twice the offset of four times.
fn doubled_offset(t1: i128, t2: i128, t3: i128, t4: i128) -> i128
    requires t1 { unsigned_abs t1 ≤ 2 ^ 71 }
    requires t2 { unsigned_abs t2 ≤ 2 ^ 71 }
    requires t3 { unsigned_abs t3 ≤ 2 ^ 71 }
    requires t4 { unsigned_abs t4 ≤ 2 ^ 71 }
    ensures value { result ≡ offset_doubled t1 t2 t3 t4 }
    ensures in_range { unsigned_abs result ≤ 2 ^ 73 }
{
    elapsed(t1, t2) + elapsed(t4, t3)
}

/// The delay of four times.
fn round_trip(t1: i128, t2: i128, t3: i128, t4: i128) -> i128
    requires t1 { unsigned_abs t1 ≤ 2 ^ 71 }
    requires t2 { unsigned_abs t2 ≤ 2 ^ 71 }
    requires t3 { unsigned_abs t3 ≤ 2 ^ 71 }
    requires t4 { unsigned_abs t4 ≤ 2 ^ 71 }
    ensures { result ≡ delay_of t1 t2 t3 t4 }
{
    elapsed(t1, t4) - elapsed(t2, t3)
}

/// Half of a number, rounded down.
fn halved_down(twice: i128) -> i128
    requires { unsigned_abs twice ≤ 2 ^ 73 }
    ensures value { result ≡ half_down twice }
    ensures in_range { unsigned_abs result ≤ 2 ^ 73 }
{
    twice.div_euclid(2)
}

/// Half of a number, rounded up.
fn halved_up(twice: i128) -> i128
    requires { unsigned_abs twice ≤ 2 ^ 73 }
    ensures { result ≡ half_up twice }
{
    -halved_down(-twice)
}

/// From one moment to another.
fn elapsed(from: i128, to: i128) -> i128
    requires from { unsigned_abs from ≤ 2 ^ 71 }
    requires to { unsigned_abs to ≤ 2 ^ 71 }
    ensures value { result ≡ to -ℤ from }
    ensures in_range { unsigned_abs result ≤ 2 ^ 72 }
{
    to - from
}

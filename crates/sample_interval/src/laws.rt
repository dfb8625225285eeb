//! What holds of the definitions. A law is a function that does nothing: its contract is the law,
//! for every number. If a moment may fall between two ticks, times and readings are whole
//! numbers of 1/n tick.

ghost use Rattle.std.specs.Prelude.{◌≡◌, ℕ, ◌<◌, ◌≤◌, ◌*◌, ℤ, pos, ◌+ℤ◌, ◌-ℤ◌, ◌*ℤ◌, ◌≤ℤ◌, ◌↔◌, ◌⊎◌};
ghost use Rattle.intersection.specs.declared.kinds.Interval.{Interval};
ghost use Rattle.era_unfold.specs.Ratio.{IsSignedFloor, IsSignedCeiling};
ghost use Rattle.intersection.specs.Fraction.{HoldsFraction};
ghost use Rattle.pairing.specs.declared.exchange.Exchange.{Exchange};
ghost use Rattle.sample_interval.specs.Moment.{Moment, DriftsWithin, DriftsWithinByReading, IsInWindow, IsWithinDistance, IsOffAtLeast, IsOffAtMost};
ghost use Rattle.sample_interval.specs.OnWire.{offset_doubled, delay_of, least_offset_doubled, greatest_offset_doubled, offset_from, offset_to, delay_from, delay_to};
ghost use Rattle.sample_interval.specs.Sample.{least_error, greatest_error, sample_of};
ghost use Rattle.sample_interval.specs.Widening.{IsWidening, widening, billion};
ghost use Rattle.sample_interval.specs.Window.{request_start, request_end, reply_start, reply_end};

use crate::widening::PARTS;
use era_unfold::laws::ratios_are_rounded_as_little_as_can_be;

/// The parts that the program counts a rate in are those of the definitions.
pub fn parts_are_those_of_the_definitions()
    ensures { PARTS ≡ billion }
{}

/// A drift that is bounded by true time is bounded by the clock's own readings too: from parts in
/// 10^9 of true time to parts in 10^9 less the rate of what the clock shows.
#[tactic(auto, using(crate::proofs::LeastWidening::drift_by_reading))]
pub fn drift_shows_on_the_clock_itself()
    ensures { (ppb : ℕ) (a b : Moment) → ppb ≤ billion →
        DriftsWithin ppb a b → DriftsWithinByReading ppb a b }
{}

/// If the server isn't false, the client's error at the request is no less than the sample's low
/// end, and as much more as the clock then read beyond the window's start: the request left before
/// a true time from which T2 is off by the root distance at most. However far beyond that was, it
/// costs nothing.
#[tactic(auto, using(crate::proofs::Moment::at_request))]
pub fn error_at_the_request_is_no_less()
    ensures { (x : Exchange) (allowance : ℤ) (n : ℕ) (request : Moment) (received : ℤ) →
        request.time ≤ℤ received → IsWithinDistance n x.t2 x.distance received →
        IsOffAtLeast n (least_error x allowance) (request_start x allowance) request }
{}

/// If the server isn't false, the client's error at the reply is no more than the sample's high
/// end, and as much less as the clock then read short of the window's end.
#[tactic(auto, using(crate::proofs::Moment::at_reply))]
pub fn error_at_the_reply_is_no_more()
    ensures { (x : Exchange) (allowance : ℤ) (n : ℕ) (reply : Moment) (sent : ℤ) →
        sent ≤ℤ reply.time → IsWithinDistance n x.t3 x.distance sent →
        IsOffAtMost n (greatest_error x allowance) (reply_end x allowance) reply }
{}

/// A wider allowance widens a sample at both ends and both its windows alike, and moves nothing.
pub fn wider_allowance_widens()
    ensures { (x : Exchange) (allowance more : ℤ) → let narrow = sample_of x allowance in
        sample_of x (allowance +ℤ more) ≡ record narrow {
          low = narrow.low -ℤ more;
          low_from = narrow.low_from -ℤ more;
          low_to = narrow.low_to +ℤ more;
          high = narrow.high +ℤ more;
          high_from = narrow.high_from -ℤ more;
          high_to = narrow.high_to +ℤ more;
        } }
{}

/// A larger root distance widens a sample at both ends alike, and leaves its windows as they are.
pub fn larger_distance_widens()
    ensures { (x : Exchange) (allowance more : ℤ) → let narrow = sample_of x allowance in
        sample_of (record x { distance = x.distance +ℤ more }) allowance ≡ record narrow {
          low = narrow.low -ℤ more;
          high = narrow.high +ℤ more;
        } }
{}

/// Every distance has its widening, which is one number.
pub fn widening_is_one_number()
    ensures is { (ppb distance : ℕ) → ppb < billion →
        IsWidening ppb distance (widening ppb distance) }
    ensures one { (ppb distance w : ℕ) → ppb < billion →
        IsWidening ppb distance w → w ≡ widening ppb distance }
{
    ratios_are_rounded_as_little_as_can_be();
}

/// The widening grows with the distance and with the rate, and is zero exactly if one of them is.
#[tactic(auto, using(crate::proofs::LeastWidening::widening_mono))]
pub fn widening_grows()
    ensures distance { (ppb near far : ℕ) → ppb < billion → near ≤ far →
        widening ppb near ≤ widening ppb far }
    ensures rate { (slow fast distance : ℕ) → fast < billion → slow ≤ fast →
        widening slow distance ≤ widening fast distance }
    ensures zero { (ppb distance : ℕ) → ppb < billion →
        (widening ppb distance ≡ 0) ↔ ((ppb ≡ 0) ⊎ (distance ≡ 0)) }
{
    widening_is_one_number();
}

/// The offset's interval is rounded outwards as little as can be: to the floor and the ceiling of
/// half a whole number.
pub fn offset_is_rounded_outwards()
    ensures from { (x : Exchange) (allowance : ℤ) →
        IsSignedFloor (offset_from x allowance) (least_offset_doubled x allowance) 2 }
    ensures to { (x : Exchange) (allowance : ℤ) →
        IsSignedCeiling (offset_to x allowance) (greatest_offset_doubled x allowance) 2 }
{}

/// The intervals of offset and delay hold the offset and the delay of every choice of moments
/// inside the two windows, fractions of a tick too.
#[tactic(auto, using(crate::proofs::OnWire::every_choice))]
pub fn offset_and_delay_hold_every_choice()
    ensures offset { (x : Exchange) (allowance : ℤ) (n : ℕ) (t1 t4 : ℤ) → 0 < n →
        IsInWindow n (request_start x allowance) (request_end x allowance) t1 →
        IsInWindow n (reply_start x allowance) (reply_end x allowance) t4 →
        let stamps : Interval =
        record { lo = offset_from x allowance; hi = offset_to x allowance } in
        HoldsFraction stamps (offset_doubled t1 (x.t2 *ℤ pos n) (x.t3 *ℤ pos n) t4) (2 * n) }
    ensures delay { (x : Exchange) (allowance : ℤ) (n : ℕ) (t1 t4 : ℤ) → 0 < n →
        IsInWindow n (request_start x allowance) (request_end x allowance) t1 →
        IsInWindow n (reply_start x allowance) (reply_end x allowance) t4 →
        let delays : Interval = record { lo = delay_from x allowance; hi = delay_to x allowance } in
        HoldsFraction delays (delay_of t1 (x.t2 *ℤ pos n) (x.t3 *ℤ pos n) t4) n }
{}

/// Offset and half the delay give the way out, offset less half the delay the way back (RFC 5905,
/// section 8).
pub fn offset_and_delay_give_both_ways()
    ensures out { (t1 t2 t3 t4 : ℤ) →
        offset_doubled t1 t2 t3 t4 +ℤ delay_of t1 t2 t3 t4 ≡ pos 2 *ℤ (t2 -ℤ t1) }
    ensures back { (t1 t2 t3 t4 : ℤ) →
        offset_doubled t1 t2 t3 t4 -ℤ delay_of t1 t2 t3 t4 ≡ pos 2 *ℤ (t3 -ℤ t4) }
{}

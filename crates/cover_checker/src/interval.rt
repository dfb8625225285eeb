//! What marks say over a stretch.

ghost use Rattle.std.specs.Int.{div_ceil};
ghost use Rattle.std.specs.Prelude.{◌≡◌, ◌^◌, ◌<◌, ◌≤◌, pos, ◌≤ℤ◌, unsigned_abs, length};
ghost use Rattle.cover_checker.specs.Common.{IsLawful, IsPiece, IsRate, IsWithinRange, claim_data};
ghost use Rattle.cover_checker.specs.Interval as spec;

use claim_file::Claim;
use era_unfold::laws::ratios_are_rounded_as_little_as_can_be;
use error_marks::{Mark, high_mark, low_mark};
use intersection::kinds::Interval;
use pairing::Exchange;
use sample_interval::{PARTS, widen};
use span_cover::{Part, Stretch};

/// How far it is from one reading to another: nothing if the other comes first.
fn ahead(from: i128, to: i128) -> i128
    requires from { unsigned_abs from ≤ 2 ^ 73 }
    requires to { unsigned_abs to ≤ 2 ^ 73 }
    ensures value { result ≡ spec.ahead from to }
    ensures from_zero { pos 0 ≤ℤ result }
    ensures in_range { result ≤ℤ pos (2 ^ 75) }
{
    (to - from).max(0)
}

/// The quotient, rounded up.
fn rounded_up(dividend: u128, divisor: u128) -> u128
    requires { 0 < divisor }
    ensures { result ≡ div_ceil dividend divisor }
{
    dividend.div_ceil(divisor)
}

/// The most that the error rises while the clock advances this far, in ticks and rounded up.
fn rise(drift_ppb: u32, distance: i128) -> i128
    requires rate { IsRate drift_ppb }
    requires from_zero { pos 0 ≤ℤ distance }
    requires in_range { distance ≤ℤ pos (2 ^ 75) }
    ensures exact { result ≡ spec.rise drift_ppb distance }
    ensures not_negative { pos 0 ≤ℤ result }
    ensures at_most_the_distance { result ≤ℤ distance }
{
    ratios_are_rounded_as_little_as_can_be();
    let rate = u128::from(drift_ppb);
    rounded_up(rate * distance.unsigned_abs(), PARTS + rate) as i128
}

/// The least that the error can be at a reading of the stretch, by a low mark.
pub fn low_over(drift_ppb: u32, stretch: Stretch, mark: Mark) -> i128
    requires rate { IsRate drift_ppb }
    requires stretch { IsPiece stretch.begin stretch.end }
    requires mark { IsWithinRange mark }
    ensures { result ≡ spec.low_over drift_ppb stretch mark }
{
    let fall = widen(drift_ppb, ahead(mark.place, stretch.end));
    let rise = rise(drift_ppb, ahead(stretch.begin, mark.place));
    mark.error - fall.max(rise)
}

/// The greatest, by a high mark.
pub fn high_over(drift_ppb: u32, stretch: Stretch, mark: Mark) -> i128
    requires rate { IsRate drift_ppb }
    requires stretch { IsPiece stretch.begin stretch.end }
    requires mark { IsWithinRange mark }
    ensures { result ≡ spec.high_over drift_ppb stretch mark }
{
    let rise = rise(drift_ppb, ahead(mark.place, stretch.end));
    let fall = widen(drift_ppb, ahead(stretch.begin, mark.place));
    mark.error + rise.max(fall)
}

/// By how many ticks a low mark and a high mark miss each other, rounded down.
pub fn missed_by(drift_ppb: u32, low: Mark, high: Mark) -> i128
    requires rate { IsRate drift_ppb }
    requires low { IsWithinRange low }
    requires high { IsWithinRange high }
    ensures { result ≡ spec.missed_by drift_ppb low high }
{
    let fall = widen(drift_ppb, ahead(low.place, high.place));
    let rise = rise(drift_ppb, ahead(high.place, low.place));
    let least = low.error - fall.max(rise);
    least - high.error
}

/// What two exchanges of a server say: the one by its low mark, the other by its high mark.
pub fn part_of(claim: &Claim, stretch: Stretch, low: &Exchange, high: &Exchange) -> Part
    requires low { IsLawful (length claim.now.servers.items) low.now }
    requires high { IsLawful (length claim.now.servers.items) high.now }
    requires stretch { IsPiece stretch.begin stretch.end }
    ensures { result ≡ spec.part_of (claim_data claim.now) stretch low.now high.now }
{
    Part {
        server: low.server,
        interval: Interval {
            lo: low_over(claim.drift_ppb, stretch, low_mark(low, claim.reading)),
            hi: high_over(claim.drift_ppb, stretch, high_mark(high, claim.reading)),
        },
    }
}

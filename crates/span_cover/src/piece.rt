//! The interval of a piece.

ghost use Rattle.std.specs.Prelude.{◌≡◌, ◌≤◌, ◌^◌, pos, ◌≤ℤ◌, unsigned_abs};
ghost use Rattle.span_cover.specs.Common.{IsLawfulSample, IsRate};
ghost use Rattle.span_cover.specs.Piece.{IsPiece, farthest, moved_low, moved_high, piece_interval_of};

use intersection::kinds::Interval;
use sample_interval::kinds::Sample;
use sample_interval::widen;

/// The interval in which the client's error lies throughout the piece of the readings `p` to `q`,
/// if the samples' server isn't false: the low end of `low` and the high end of `high`, each moved
/// outwards by the widening of the greatest distance between its window and the piece.
///
/// `p` and `q` are Unix ticks, from 0 to below 2^64. The rate is up to 500,000,000 parts in 10^9.
pub fn piece_interval(low: &Sample, high: &Sample, p: i128, q: i128, drift_ppb: u32) -> Interval
    requires low { IsLawfulSample low.now }
    requires high { IsLawfulSample high.now }
    requires piece { IsPiece p q }
    requires rate { IsRate drift_ppb }
    ensures { result ≡ piece_interval_of low.now high.now p q drift_ppb }
{
    Interval {
        lo: lowered(low, p, q, drift_ppb),
        hi: raised(high, p, q, drift_ppb),
    }
}

/// The low end of a sample, moved down for the piece.
pub fn lowered(sample: &Sample, p: i128, q: i128, drift_ppb: u32) -> i128
    requires sample { IsLawfulSample sample.now }
    requires piece { IsPiece p q }
    requires rate { IsRate drift_ppb }
    ensures value { result ≡ moved_low sample.now p q drift_ppb }
    ensures in_range { unsigned_abs result ≤ 2 ^ 74 }
{
    let distance = greatest_distance(sample.low_from, sample.low_to, p, q);
    sample.low - widen(drift_ppb, distance)
}

/// The high end of a sample, moved up for the piece.
pub fn raised(sample: &Sample, p: i128, q: i128, drift_ppb: u32) -> i128
    requires sample { IsLawfulSample sample.now }
    requires piece { IsPiece p q }
    requires rate { IsRate drift_ppb }
    ensures value { result ≡ moved_high sample.now p q drift_ppb }
    ensures in_range { unsigned_abs result ≤ 2 ^ 74 }
{
    let distance = greatest_distance(sample.high_from, sample.high_to, p, q);
    sample.high + widen(drift_ppb, distance)
}

/// The greatest distance between a window and a piece.
fn greatest_distance(from: i128, to: i128, p: i128, q: i128) -> i128
    requires from { unsigned_abs from ≤ 2 ^ 72 }
    requires to { unsigned_abs to ≤ 2 ^ 72 }
    requires in_order { from ≤ℤ to }
    requires piece { IsPiece p q }
    ensures value { result ≡ farthest from to p q }
    ensures from_zero { pos 0 ≤ℤ result }
    ensures in_range { result ≤ℤ pos (2 ^ 73) }
{
    (q - from).max(to - p)
}

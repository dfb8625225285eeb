//! The best samples of a server.

ghost use Rattle.std.specs.Prelude.{◌≡◌, ℕ, ℤ, ◌≤◌, ◌≤ℤ◌, length, All, IsNone, IfSome, ◌↔◌};
ghost use Rattle.span_cover.specs.Common.{IsLawfulSample, IsRate};
ghost use Rattle.span_cover.specs.Piece.{IsPiece};
ghost use Rattle.span_cover.specs.Best.{best_of, first_best_of, merit, better, IsBestLow, IsBestHigh, HasNoSample};

use crate::piece::{lowered, raised};
use intersection::Side;
use sample_interval::kinds::Sample;

/// The numbers of the samples of a server that make its interval over the piece `p` to `q`
/// narrowest: the one with the greatest moved low and the one with the least moved high, the least
/// number if several agree. None if the server has no sample.
///
/// `p` and `q` are Unix ticks, from 0 to below 2^64. The rate is up to 500,000,000 parts in 10^9,
/// and the samples are at most 1,000,000.
pub fn best(samples: &[Sample], server: u8, p: i128, q: i128, drift_ppb: u32) -> Option<(u32, u32)>
    requires samples { All IsLawfulSample samples.now }
    requires few { length samples.now ≤ 1_000_000 }
    requires piece { IsPiece p q }
    requires rate { IsRate drift_ppb }
    ensures exact { result ≡ best_of samples.now server p q drift_ppb }
    ensures none { IsNone result ↔ HasNoSample samples.now server }
    ensures low { IfSome result (λ chosen. IsBestLow samples.now server p q drift_ppb chosen.0) }
    ensures high { IfSome result (λ chosen. IsBestHigh samples.now server p q drift_ppb chosen.1) }
{
    let low = first_best(samples, server, Side::Low, p, q, drift_ppb)?;
    let high = first_best(samples, server, Side::High, p, q, drift_ppb)?;
    Some((low, high))
}

/// The first of the server's samples with the greatest merit.
#[tactic(auto, using(crate::proofs::Worth::one_before))]
fn first_best(
    samples: &[Sample],
    server: u8,
    side: Side,
    p: i128,
    q: i128,
    drift_ppb: u32,
) -> Option<u32>
    requires samples { All IsLawfulSample samples.now }
    requires few { length samples.now ≤ 1_000_000 }
    requires piece { IsPiece p q }
    requires rate { IsRate drift_ppb }
    ensures { result ≡ first_best_of (λ s. merit side s p q drift_ppb) samples.now server }
{
    let mut best: Option<(u32, i128)> = None;
    // From the last sample to the first, so that the first of those that agree is left.
    for number in (0..samples.len()).rev() {
        let sample = samples[number];
        if sample.server == server {
            best = first_of(number as u32, &sample, side, p, q, drift_ppb, best);
        }
    }
    best.map(|(number, _)| number)
}

/// The sample, unless a later one has more merit.
fn first_of(
    number: u32,
    sample: &Sample,
    side: Side,
    p: i128,
    q: i128,
    drift_ppb: u32,
    later: Option<(u32, i128)>,
) -> Option<(u32, i128)>
    requires sample { IsLawfulSample sample.now }
    requires piece { IsPiece p q }
    requires rate { IsRate drift_ppb }
    ensures { result ≡ better number (merit side sample.now p q drift_ppb) later }
{
    // To be moved only takes merit away, so that most samples are passed over as they stand.
    if let Some((_, more)) = later {
        if unmoved(sample, side) < more {
            return later;
        }
    }
    better_of(number, merit_of(sample, side, p, q, drift_ppb), later)
}

/// How good the sample would be for this end if it weren't moved for the piece.
#[tactic(auto, unfolding(crate::specs::Piece::moved_low, crate::specs::Piece::moved_high))]
fn unmoved(sample: &Sample, side: Side) -> i128
    requires { IsLawfulSample sample.now }
    ensures { (p q : ℤ) (ppb : ℕ) → merit side sample.now p q ppb ≤ℤ result }
{
    match side {
        Side::Low => sample.low,
        Side::High => -sample.high,
    }
}

/// How good the sample is for this end: more is narrower.
fn merit_of(sample: &Sample, side: Side, p: i128, q: i128, drift_ppb: u32) -> i128
    requires sample { IsLawfulSample sample.now }
    requires piece { IsPiece p q }
    requires rate { IsRate drift_ppb }
    ensures { result ≡ merit side sample.now p q drift_ppb }
{
    match side {
        Side::Low => lowered(sample, p, q, drift_ppb),
        Side::High => -raised(sample, p, q, drift_ppb),
    }
}

/// A sample, unless a later one has more merit.
fn better_of(number: u32, merit: i128, later: Option<(u32, i128)>) -> Option<(u32, i128)>
    ensures { result ≡ better number merit later }
{
    match later {
        Some((_, more)) => {
            if merit < more {
                later
            } else {
                Some((number, merit))
            }
        }
        None => Some((number, merit)),
    }
}

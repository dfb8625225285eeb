//! The best samples of every server, of samples that are taken one by one.

ghost use Rattle.std.specs.Prelude.{◌≡◌, ℕ, ℤ, ◌<◌, List, [], ◌∷◌, ◌++◌};
ghost use Rattle.span_cover.specs.Common.{int_max, int_min, IsLawfulSample, Sample as TheSample, IsRate};
ghost use Rattle.span_cover.specs.Piece.{IsPiece, moved_low, moved_high};
ghost use Rattle.span_cover.specs.Gathering.{Gathered, best_interval};

use crate::piece::{lowered, piece_interval, raised};
use intersection::kinds::Interval;
use sample_interval::kinds::Sample;
use std::marker::Model;

/// The interval of each server over one piece of time, by the best of the samples that were taken.
/// Servers have numbers below 32.
///
/// Nothing is kept of a sample but what it makes narrower, so that it takes one pass over the
/// samples for all servers, and no list of them.
#[derive(Drop)]
pub struct BestSamples {
    p: i128,
    q: i128,
    drift_ppb: u32,
    /// The interval of each server that has a sample, at its number.
    intervals: [Option<Interval>; 32],
}

impl Model for BestSamples {
    ghost use Rattle.span_cover.specs.Gathering.{Gathering, IsGatheredOver};

    ghost Value = { Gathering };

    ghost view = { λ best. record {
      p = best.p;
      q = best.q;
      drift_ppb = best.drift_ppb;
      intervals = best.intervals;
    } };

    ghost invariant = { λ best. IsGatheredOver best.p best.q best.drift_ppb };
}

impl BestSamples {
    /// No sample yet, for the piece of the readings `p` to `q`.
    ///
    /// `p` and `q` are Unix ticks, from 0 to below 2^64. The rate is up to 500,000,000 parts in
    /// 10^9.
    pub fn new(p: i128, q: i128, drift_ppb: u32) -> BestSamples
        requires piece { IsPiece p q }
        requires rate { IsRate drift_ppb }
        ensures { Gathered [] p q drift_ppb result }
    {
        BestSamples {
            p,
            q,
            drift_ppb,
            intervals: [None; 32],
        }
    }

    /// Takes one sample more.
    #[tactic(auto, using(crate::proofs::Worth::piece_kept, crate::proofs::Worth::entry_fits))]
    pub fn take(&mut self, sample: &Sample)
        requires sample { IsLawfulSample sample.now }
        requires server { sample.now.server < 32 }
        ensures { (samples : List TheSample) (p q : ℤ) (ppb : ℕ) →
            Gathered samples p q ppb self.old →
            Gathered (samples ++ sample.now ∷ []) p q ppb self.new }
    {
        let server = sample.server as usize;
        let interval = match self.intervals[server] {
            Some(so_far) => Interval {
                lo: greater_low(so_far.lo, sample, self.p, self.q, self.drift_ppb),
                hi: lesser_high(so_far.hi, sample, self.p, self.q, self.drift_ppb),
            },
            None => piece_interval(sample, sample, self.p, self.q, self.drift_ppb),
        };
        self.intervals[server] = Some(interval);
    }

    /// The interval of a server's best samples, none if no sample of it was taken.
    pub fn interval_of(&self, server: u8) -> Option<Interval>
        requires { server < 32 }
        ensures { (samples : List TheSample) (p q : ℤ) (ppb : ℕ) →
            Gathered samples p q ppb self.now →
            result ≡ best_interval samples server p q ppb }
    {
        self.intervals[server as usize]
    }
}

/// The greater of a low end and a sample's, moved down for the piece.
#[tactic(auto, unfolding(crate::specs::Piece::moved_low))]
fn greater_low(low: i128, sample: &Sample, p: i128, q: i128, drift_ppb: u32) -> i128
    requires sample { IsLawfulSample sample.now }
    requires piece { IsPiece p q }
    requires rate { IsRate drift_ppb }
    ensures { result ≡ int_max low (moved_low sample.now p q drift_ppb) }
{
    // To be moved takes it further down, so that most samples are passed over as they stand.
    if sample.low <= low {
        return low;
    }
    low.max(lowered(sample, p, q, drift_ppb))
}

/// The lesser of a high end and a sample's, moved up for the piece.
#[tactic(auto, unfolding(crate::specs::Piece::moved_high))]
fn lesser_high(high: i128, sample: &Sample, p: i128, q: i128, drift_ppb: u32) -> i128
    requires sample { IsLawfulSample sample.now }
    requires piece { IsPiece p q }
    requires rate { IsRate drift_ppb }
    ensures { result ≡ int_min high (moved_high sample.now p q drift_ppb) }
{
    if high <= sample.high {
        return high;
    }
    high.min(raised(sample, p, q, drift_ppb))
}

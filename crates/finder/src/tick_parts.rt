//! What each server says about the clock's error at one reading of the clock, a tick.

ghost use Rattle.std.specs.Prelude.{◌≡◌, ◌<◌, ℕ, ℤ, List, IfSome, length, All};
ghost use Rattle.finder.specs.Common.{data_of, Sample as TheSample, Gathered, IsPiece, AreSamplesOf};
ghost use Rattle.finder.specs.TickParts as spec;
ghost use Rattle.finder.specs.TickParts.{best_part};

use arrayvec::ArrayVec;
use claim_file::Claim;
use sample_interval::SampleSource;
use span_cover::{BestSamples, Part};

/// What each server says at a tick that has a sample, in the order of the servers: the interval of
/// its best samples there.
///
/// The tick is one of Unix time, of 2^-32 s, from 0 to below 2^64. It may lie outside the span.
pub fn best_parts<S: SampleSource>(samples: S, claim: &Claim, tick: i128) -> ArrayVec<Part, 32>
    requires samples { AreSamplesOf (data_of claim.now) (S.samples samples) }
    requires tick { IsPiece tick tick }
    ensures exact { result.items ≡
        spec.best_parts (S.samples samples) (data_of claim.now) tick }
    ensures listed { All (λ part. part.server < length claim.now.servers.items) result.items }
{
    let best = best_at(samples, claim, tick);
    let mut parts = ArrayVec::new();
    for server in 0..claim.servers.len() as u8 {
        if let Some(part) = part_at(&best, server) {
            parts.push(part);
        }
    }
    parts
}

/// The best samples of each server at a tick, by one pass over the samples.
fn best_at<S: SampleSource>(samples: S, claim: &Claim, tick: i128) -> BestSamples
    requires samples { AreSamplesOf (data_of claim.now) (S.samples samples) }
    requires tick { IsPiece tick tick }
    ensures { Gathered (S.samples samples) tick tick claim.now.drift_ppb result }
{
    let mut best = BestSamples::new(tick, tick, claim.drift_ppb);
    for number in 0..samples.count() {
        best.take(&samples.sample_at(number));
    }
    best
}

/// What a server says at a tick by its best samples there, if it has one.
fn part_at(best: &BestSamples, server: u8) -> Option<Part>
    requires { server < 32 }
    ensures exact { (samples : List TheSample) (tick : ℤ) (ppb : ℕ) →
        Gathered samples tick tick ppb best.now → result ≡ best_part samples ppb tick server }
    ensures of_server { IfSome result (λ part. part.server ≡ server) }
{
    let interval = best.interval_of(server)?;
    Some(Part { server, interval })
}

//! What the entries of a piece say.

ghost use Rattle.std.specs.Prelude.{◌≡◌, ◌<◌, length, All};
ghost use Rattle.finder.specs.Common.{data_of, IsPiece, AreSamplesOf};
ghost use Rattle.finder.specs.Entry.{AreNamed, parts_named};

use arrayvec::ArrayVec;
use claim_file::Claim;
use sample_interval::SampleSource;
use span_cover::{Part, Stretch, part_of};

/// What the entries of a piece say, in their order: the interval of each server that has one.
///
/// The stretch is of Unix ticks, from 0 to below 2^64.
pub fn parts<S: SampleSource>(
    samples: S,
    claim: &Claim,
    stretch: Stretch,
    entries: &ArrayVec<(u32, u32), 32>,
) -> ArrayVec<Part, 32>
    requires samples { AreSamplesOf (data_of claim.now) (S.samples samples) }
    requires stretch { IsPiece stretch.begin stretch.end }
    requires named { AreNamed (length (S.samples samples)) entries.now.items }
    ensures exact { result.items ≡
        parts_named (S.samples samples) (data_of claim.now) stretch entries.now.items }
    ensures listed { All (λ part. part.server < length claim.now.servers.items) result.items }
{
    let mut parts: ArrayVec<Part, 32> = ArrayVec::new();
    for entry in entries.as_slice() {
        let low = samples.sample_at(entry.0 as usize);
        let high = samples.sample_at(entry.1 as usize);
        parts.push(part_of(&low, &high, stretch, claim.drift_ppb));
    }
    parts
}

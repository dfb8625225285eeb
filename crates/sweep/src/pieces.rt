//! The best samples of every piece.

ghost use Rattle.std.specs.Prelude.{◌≡◌, ◌≤◌, length, All, IsNone, IfOk, IfSome, ◌↔◌, map};
ghost use Rattle.sweep.specs.Common.{IsLawfulSample, IsRate, HasNoSample};
ghost use Rattle.sweep.specs.Pieces.{ArePieces, AreBestOfPieces, ArePairsOf};

use crate::choice::top_numbers;
use crate::extreme::extremes_of;
use crate::unsigned_stretch::stretches_of;
use sample_interval::SampleSource;
use std::alloc::{AllocError, Global};

/// The best samples of a server for each of the consecutive pieces that end at `ends`, the first of
/// which begins at `first`: entry k is what `span_cover::best` gives for the piece from the end
/// before `ends[k]` to `ends[k]`. None if the server has no sample. Its one error is that it is
/// out of memory.
///
/// `servers` has the server of each sample, as [`servers_of`](crate::servers_of) makes it once for
/// all of them. `first` and `ends` are Unix ticks, from 0 to below 2^64, and never fall. The rate
/// is up to 500,000,000 parts in 10^9, and the samples are at most 1,000,000.
pub fn best_of_pieces<S: SampleSource>(
    alloc: Global,
    samples: S,
    servers: &[u8],
    server: u8,
    first: i128,
    ends: &[i128],
    drift_ppb: u32,
) -> Result<Option<Vec<(u32, u32)>>, AllocError>
    requires samples { All IsLawfulSample (S.samples samples) }
    requires few { length (S.samples samples) ≤ 1_000_000 }
    requires servers { servers.now ≡ map (λ sample. sample.server) (S.samples samples) }
    requires pieces { ArePieces first ends.now }
    requires rate { IsRate drift_ppb }
    ensures none { IfOk result (λ found. IsNone found ↔ HasNoSample (S.samples samples) server) }
    ensures best { IfOk result (λ found. IfSome found (λ chosen.
        AreBestOfPieces (S.samples samples) server first ends.now drift_ppb chosen.items)) }
{
    let (lows, highs) = extremes_of(alloc, samples, servers, server)?;
    if lows.is_empty() {
        return Ok(None);
    }
    let stretches = stretches_of(alloc, first, ends)?;
    let low_numbers = top_numbers(alloc, lows.as_slice(), stretches.as_slice(), drift_ppb)?;
    let high_numbers = top_numbers(alloc, highs.as_slice(), stretches.as_slice(), drift_ppb)?;
    let chosen = pairs_of(alloc, low_numbers.as_slice(), high_numbers.as_slice())?;
    Ok(Some(chosen))
}

/// What stands at the same index of both.
fn pairs_of(alloc: Global, lows: &[u32], highs: &[u32]) -> Result<Vec<(u32, u32)>, AllocError>
    requires { length lows.now ≡ length highs.now }
    ensures { IfOk result (λ pairs. ArePairsOf lows.now highs.now pairs.items) }
{
    let mut pairs = Vec::with_capacity(alloc, lows.len())?;
    for k in 0..lows.len() {
        pairs.push((lows[k], highs[k]))?;
    }
    Ok(pairs)
}

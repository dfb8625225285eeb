//! The entries of a piece.

ghost use Rattle.std.specs.Prelude.{◌≡◌, ◌==◌, [], All, Ok, Err, MatchResult, slice_get};
ghost use Rattle.checker.specs.Common.{list_any, IsLawfulSample, IsRate, IsPiece};
ghost use Rattle.checker.specs.Verdict.{part_from, parts_after};

use crate::verdict::Why;
use arrayvec::ArrayVec;
use sample_interval::SampleSource;
use sample_interval::kinds::Sample;
use span_cover::{Part, Stretch, part_of};

/// Puts what the entries of a piece say into `parts`, in their order, or answers the first reason
/// to refuse one. (As a value it would be copied for each piece.)
pub(crate) fn add_parts<S: SampleSource>(
    parts: &mut ArrayVec<Part, 32>,
    samples: S,
    stretch: Stretch,
    drift_ppb: u32,
    entries: &ArrayVec<(u32, u32), 32>,
) -> Result<(), Why>
    requires empty { parts.old.items ≡ [] }
    requires samples { All IsLawfulSample (S.samples samples) }
    requires stretch { IsPiece stretch.begin stretch.end }
    requires rate { IsRate drift_ppb }
    ensures { MatchResult result
        (λ _. parts_after (S.samples samples) stretch drift_ppb [] entries.now.items
        ≡ Ok parts.new.items)
        (λ why. parts_after (S.samples samples) stretch drift_ppb [] entries.now.items
        ≡ Err why) }
{
    for entry in entries.as_slice() {
        let part = part(samples, stretch, drift_ppb, *entry, parts.as_slice())?;
        parts.push(part);
    }
    Ok(())
}

/// What one entry says, after others of its piece.
fn part<S: SampleSource>(
    samples: S,
    stretch: Stretch,
    drift_ppb: u32,
    entry: (u32, u32),
    earlier: &[Part],
) -> Result<Part, Why>
    requires samples { All IsLawfulSample (S.samples samples) }
    requires stretch { IsPiece stretch.begin stretch.end }
    requires rate { IsRate drift_ppb }
    ensures { result ≡
        part_from stretch drift_ppb earlier.now
        (slice_get (S.samples samples) entry.0)
        (slice_get (S.samples samples) entry.1) }
{
    let Some(low) = sample_named(samples, entry.0) else {
        return Err(Why::BadSample);
    };
    let Some(high) = sample_named(samples, entry.1) else {
        return Err(Why::BadSample);
    };
    let server = low.server;
    if server != high.server {
        return Err(Why::MixedServers);
    }
    if names_server(earlier, server) {
        return Err(Why::RepeatedServer);
    }
    Ok(part_of(&low, &high, stretch, drift_ppb))
}

/// The sample that an entry names, if there is one.
#[inline(always)]
fn sample_named<S: SampleSource>(samples: S, number: u32) -> Option<Sample>
    ensures { result ≡ slice_get (S.samples samples) number }
{
    let number = number as usize;
    if number < samples.count() {
        Some(samples.sample_at(number))
    } else {
        None
    }
}

/// Whether one of the parts is of this server.
fn names_server(parts: &[Part], server: u8) -> bool
    ensures { result ≡ list_any (λ part. part.server == server) parts.now }
{
    parts.iter().any(|part| part.server == server)
}

//! The hull over any ticks, by tables of the samples.

ghost use Rattle.std.specs.Prelude.{◌≡◌, ◌<◌, ◌≤◌, ◌^◌, pos, List, length, All, IfOk};
ghost use Rattle.true_time.specs.Common.{AreSamplesOf, AreTablesFor, IsTabled, OfTables, Sample, best_entries, best_hull, data_of, parts_named, stretch_over};
ghost use Rattle.true_time.specs.TrueTime.{parts_of, reading_over};

use arrayvec::ArrayVec;
use claim_file::Claim;
use intersection::kinds::Hull;
use sample_interval::SampleSource;
use span_cover::{Part, piece_hull};
use std::alloc::{AllocError, Global};
use sweep::{BestTable, Places, parts_near, tables_of};

/// The tables of the servers that have a sample.
pub(crate) fn tables_for<S: SampleSource>(
    alloc: Global,
    samples: S,
    claim: &Claim,
) -> Result<Vec<BestTable>, AllocError>
    requires samples { AreSamplesOf (data_of claim.now) (S.samples samples) }
    requires few { length (S.samples samples) ≤ 1_000_000 }
    ensures { IfOk result (λ tables.
        AreTablesFor (S.samples samples) (data_of claim.now) tables.items) }
{
    let count = claim.servers.len() as u8;
    let tables = tables_of(alloc, samples, count, claim.drift_ppb)?;
    Ok(tables)
}

/// What each server says over these ticks. The places are hints.
fn parts_over(
    tables: &[BestTable],
    places: &mut Places,
    claim: &Claim,
    begin: u64,
    end: u64,
) -> ArrayVec<Part, 32>
    requires tables { IsTabled (data_of claim.now) tables.now }
    requires in_order { begin ≤ end }
    ensures exact { OfTables (data_of claim.now) tables.now (λ samples. result.items ≡
        parts_named samples (data_of claim.now) (stretch_over (pos begin) (pos end))
        (best_entries samples (data_of claim.now) (stretch_over (pos begin) (pos end)))) }
    ensures listed { All (λ part. part.server < length claim.now.groups.items) result.items }
{
    let (begin, end) = (i128::from(begin), i128::from(end));
    parts_near(tables, places, begin, end, claim.drift_ppb)
}

/// The hull over these ticks.
pub(crate) fn hull_over(
    tables: &[BestTable],
    places: &mut Places,
    claim: &Claim,
    begin: u64,
    end: u64,
) -> Hull
    requires tables { IsTabled (data_of claim.now) tables.now }
    requires in_order { begin ≤ end }
    ensures { (samples : List Sample) → AreTablesFor samples (data_of claim.now) tables.now →
        result ≡ best_hull samples (data_of claim.now) (stretch_over (pos begin) (pos end)) }
{
    let parts = parts_over(tables, places, claim, begin, end);
    piece_hull(parts.as_slice(), claim.groups.as_slice(), claim.false_max)
}

/// What each server that has a sample says over these ticks of 2^-32 s of the Unix epoch, in the
/// order of the servers: the interval of its best samples there. They may lie outside the span.
///
/// The samples are at most 1,000,000, and of the claim.
pub fn parts_at<S: SampleSource>(
    alloc: Global,
    samples: S,
    claim: &Claim,
    begin: u64,
    end: u64,
) -> Result<ArrayVec<Part, 32>, AllocError>
    requires samples { AreSamplesOf (data_of claim.now) (S.samples samples) }
    requires few { length (S.samples samples) ≤ 1_000_000 }
    requires in_order { begin ≤ end }
    ensures exact { IfOk result (λ parts. parts.items ≡
        parts_of (S.samples samples) (data_of claim.now) (reading_over begin end)) }
    ensures listed { IfOk result (λ parts.
        All (λ part. part.server < length claim.now.servers.items) parts.items) }
{
    let tables = tables_for(alloc, samples, claim)?;
    let mut places = Places::default();
    Ok(parts_over(tables.as_slice(), &mut places, claim, begin, end))
}

//! A piece of a span, and what the samples say about the clock's error there.

ghost use Rattle.std.specs.Prelude.{◌≡◌, ◌<◌, ◌≤◌, length, All, slice_get};
ghost use Rattle.finder.specs.Common.{filter_map, data_of as claim_data, AreSamplesOf};
ghost use Rattle.finder.specs.Entry.{best_entries};
ghost use Rattle.finder.specs.Envelope.{piece_data, piece_hull_at};
ghost use Rattle.finder.specs.Piece.{stretch_at};

use crate::entry::entries_at;
use crate::hull::parts;
use crate::piece::stretch_at;
use arrayvec::ArrayVec;
use claim_file::Claim;
use intersection::kinds::Hull;
use sample_interval::SampleSource;
use span_cover::{Stretch, piece_hull};

/// A piece of a span, and what the samples say about the clock's error there.
#[derive(Debug, Drop)]
pub struct PieceHull {
    /// Its readings.
    pub stretch: Stretch,
    /// For each server that has a sample, in the order of the servers, the numbers of the samples
    /// for the low end and for the high end of its interval.
    pub entries: ArrayVec<(u32, u32), 32>,
    /// The hull over the groups of servers, in ticks.
    pub hull: Hull,
}

/// The piece of this number, from 0, of which the tables have the best samples.
pub(crate) fn piece_hull_at<S: SampleSource>(
    samples: S,
    claim: &Claim,
    step_s: u32,
    tables: &[Vec<(u32, u32)>],
    number: u32,
) -> PieceHull
    requires samples { AreSamplesOf (claim_data claim.now) (S.samples samples) }
    requires few { length tables.now ≤ 32 }
    requires long { All (λ table. number < length table.items) tables.now }
    requires best { filter_map (λ table. slice_get table.items number) tables.now
        ≡ best_entries (S.samples samples) (claim_data claim.now)
        (stretch_at (claim_data claim.now) step_s number) }
    ensures { piece_data result
        ≡ piece_hull_at (S.samples samples) (claim_data claim.now) step_s number }
{
    let stretch = stretch_at(claim, step_s, number);
    let entries = entries_at(tables, number as usize);
    let parts = parts(samples, claim, stretch, &entries);
    let hull = piece_hull(parts.as_slice(), claim.groups.as_slice(), claim.false_max);
    PieceHull {
        stretch,
        entries,
        hull,
    }
}

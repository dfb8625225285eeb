//! What one server says about a stretch.

ghost use Rattle.std.specs.Prelude.{◌≡◌};
ghost use Rattle.span_cover.specs.Common.{IsLawfulSample, IsRate};
ghost use Rattle.span_cover.specs.Part.{part_of};
ghost use Rattle.span_cover.specs.Piece.{IsPiece};

use crate::piece::piece_interval;
use crate::stretch::Stretch;
use intersection::kinds::Interval;
use sample_interval::kinds::Sample;

/// One server's interval over a stretch, in ticks: if the server isn't false, it holds the error of
/// the client's clock at every reading of the stretch.
#[derive(Clone, Copy, Debug, Default, PartialEq, Eq)]
pub struct Part {
    /// The server's number in the claim.
    pub server: u8,
    /// The interval.
    pub interval: Interval,
}

/// What a server says by two of its samples: `low` for the low end of its interval, and `high` for
/// the high end.
///
/// The stretch is of Unix ticks, from 0 to below 2^64. The rate is up to 500,000,000 parts in 10^9.
pub fn part_of(low: &Sample, high: &Sample, stretch: Stretch, drift_ppb: u32) -> Part
    requires low { IsLawfulSample low.now }
    requires high { IsLawfulSample high.now }
    requires stretch { IsPiece stretch.begin stretch.end }
    requires rate { IsRate drift_ppb }
    ensures { result ≡ part_of low.now high.now stretch drift_ppb }
{
    Part {
        server: low.server,
        interval: piece_interval(low, high, stretch.begin, stretch.end, drift_ppb),
    }
}

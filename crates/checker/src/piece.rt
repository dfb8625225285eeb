//! One piece of a certificate.

ghost use Rattle.std.specs.Prelude.{◌≡◌, ◌≤◌, ◌<◌, ◌^◌, pos, ◌≤ℤ◌, ◌<ℤ◌, length, All};
ghost use Rattle.checker.specs.Common.{data_of, piece_data, IsLawfulSample};
ghost use Rattle.checker.specs.Verdict.{hull_fault, piece_fault};

use crate::entry::add_parts;
use crate::verdict::Why;
use arrayvec::ArrayVec;
use certificate::Piece;
use claim_file::Claim;
use intersection::kinds::Hull;
use sample_interval::SampleSource;
use span_cover::{Stretch, is_inside, piece_hull};

/// The first test that fails in a piece that begins at `begin`.
pub fn piece_fault<S: SampleSource>(
    samples: S,
    claim: &Claim,
    begin: i128,
    piece: &Piece,
) -> Option<Why>
    requires samples { All IsLawfulSample (S.samples samples) }
    requires listed { All (λ sample. sample.server < length claim.now.servers.items)
        (S.samples samples) }
    requires from_1970 { pos 0 ≤ℤ begin }
    requires in_range { begin <ℤ pos (2 ^ 64) }
    ensures { result ≡
        piece_fault (S.samples samples) (data_of claim.now) begin (piece_data piece.now) }
{
    let stretch = Stretch {
        begin,
        end: i128::from(piece.upto),
    };
    if stretch.end < begin || claim.last < stretch.end {
        return Some(Why::Cut);
    }
    let mut parts = ArrayVec::new();
    match add_parts(
        &mut parts,
        samples,
        stretch,
        claim.drift_ppb,
        &piece.entries,
    ) {
        Ok(()) => hull_fault(
            piece_hull(parts.as_slice(), claim.groups.as_slice(), claim.false_max),
            claim.bound,
        ),
        Err(why) => Some(why),
    }
}

/// Why a hull doesn't show that the error is within a bound.
fn hull_fault(hull: Hull, bound: i128) -> Option<Why>
    requires { pos 0 ≤ℤ bound }
    ensures { result ≡ hull_fault bound hull }
{
    match hull {
        Hull::Unbounded => Some(Why::Unbounded),
        Hull::Empty => Some(Why::Contradiction),
        Hull::Bounded { .. } if is_inside(bound, hull) => None,
        Hull::Bounded { .. } => Some(Why::Exceeds),
    }
}

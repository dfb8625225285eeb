//! The certificate of fewest pieces.

ghost use Rattle.std.specs.Prelude.{◌≡◌, ◌≤◌, IfOk, length, map};
ghost use Rattle.finder.specs.Common.{piece_data, data_of as claim_data, most_exchanges, ArePieces, AreSamplesOf};
ghost use Rattle.finder.specs.Fewest.{pieces_over};

use crate::entry::entries_at;
use crate::table::tables_over;
use certificate::{Certificate, Piece};
use claim_file::Claim;
use sample_interval::SampleSource;
use std::alloc::{AllocError, Global};

/// The certificate of the pieces that end at `ends`, the first of which begins with the span.
pub(crate) fn certificate_over<S: SampleSource>(
    alloc: Global,
    samples: S,
    claim: &Claim,
    ends: &[i128],
) -> Result<Certificate, AllocError>
    requires samples { AreSamplesOf (claim_data claim.now) (S.samples samples) }
    requires few { length (S.samples samples) ≤ most_exchanges }
    requires pieces { ArePieces claim.now.first ends.now }
    ensures { IfOk result (λ found. map piece_data found.pieces.items
        ≡ pieces_over (S.samples samples) (claim_data claim.now) claim.now.first ends.now) }
{
    let tables = tables_over(alloc, samples, claim, claim.first, ends)?;
    let mut pieces = Vec::with_capacity(alloc, ends.len())?;
    for number in 0..ends.len() {
        let entries = entries_at(tables.as_slice(), number);
        pieces.push(Piece {
            upto: ends[number] as u64,
            entries,
        })?;
    }
    Ok(Certificate { pieces })
}

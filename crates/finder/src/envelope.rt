//! The envelope of a claim.

ghost use Rattle.std.specs.Prelude.{◌≡◌, ◌≤◌, IfOk, length};
ghost use Rattle.finder.specs.Common.{data_of as claim_data, most_exchanges, AreSamplesOf};
ghost use Rattle.finder.specs.Answer.{FindsEnvelope};
ghost use Rattle.finder.specs.Envelope.{data_of, envelope_to, IsLawfulEnvelope};
ghost use Rattle.finder.specs.Piece.{IsStep};

use crate::fault::FindFault;
use crate::least::LeastBound;
use crate::piece::piece_count;
use crate::piece_hull::{PieceHull, piece_hull_at};
use crate::table::tables;
use certificate::MAX_PIECES;
use claim_file::Claim;
use sample_interval::SampleSource;
use std::alloc::{AllocError, Global};

/// How far off a clock may have been, piece by piece, and the least bound that holds throughout.
#[derive(Debug, Drop)]
pub struct Envelope {
    /// The pieces, in their order.
    pub pieces: Vec<PieceHull>,
    /// The least bound inside which every hull lies.
    pub least: LeastBound,
}

/// The envelope of a claim, in pieces of `step_s` seconds, from 1 to 86,400. The claim's bound
/// is ignored.
///
/// The samples are those of all exchanges, in their order, at most 1,000,000, from any source. Each
/// piece has one entry for each server that has a sample, in the order of the servers: the samples
/// that make its interval there narrowest, the first among ties.
///
/// `TooManyPieces` comes exactly if the span has over 100,000 pieces, before any memory is taken,
/// and `Memory` if none is left.
#[tactic(auto, using(crate::proofs::EnvelopePieces::envelope_answers))]
pub fn find_envelope_over<S: SampleSource>(
    alloc: Global,
    samples: S,
    claim: &Claim,
    step_s: u32,
) -> Result<Envelope, FindFault>
    requires samples { AreSamplesOf (claim_data claim.now) (S.samples samples) }
    requires few { length (S.samples samples) ≤ most_exchanges }
    requires step { IsStep step_s }
    ensures { FindsEnvelope (S.samples samples) (claim_data claim.now) step_s result }
{
    let count = piece_count(claim, step_s);
    if count > MAX_PIECES as u64 {
        return Err(FindFault::TooManyPieces);
    }
    let found = envelope_to(alloc, samples, claim, step_s, count as u32)?;
    Ok(found)
}

/// The envelope of the first `count` pieces.
#[tactic(auto, using(crate::proofs::TablePieces::read_tables))]
fn envelope_to<S: SampleSource>(
    alloc: Global,
    samples: S,
    claim: &Claim,
    step_s: u32,
    count: u32,
) -> Result<Envelope, AllocError>
    requires samples { AreSamplesOf (claim_data claim.now) (S.samples samples) }
    requires few { length (S.samples samples) ≤ most_exchanges }
    ensures value { IfOk result (λ found.
        data_of found ≡ envelope_to (S.samples samples) (claim_data claim.now) step_s count) }
    ensures lawful { IfOk result (IsLawfulEnvelope (length (S.samples samples))) }
{
    let tables = tables(alloc, samples, claim, step_s, count)?;
    let mut pieces = Vec::with_capacity(alloc, count as usize)?;
    let mut least = LeastBound::Holds {
        bound_ns: 0,
        piece: 0,
    };
    for number in 0..count {
        let piece = piece_hull_at(samples, claim, step_s, tables.as_slice(), number);
        least = least.with_piece(number, piece.hull);
        pieces.push(piece)?;
    }
    Ok(Envelope { pieces, least })
}

//! What is found.

ghost use Rattle.std.specs.Prelude.{◌≡◌, ◌≤◌, IfOk, length};
ghost use Rattle.finder.specs.Common.{data_of as claim_data, most_exchanges, AreSamplesOf};
ghost use Rattle.finder.specs.Answer.{Finds};
ghost use Rattle.finder.specs.Found.{data_of, found_without, first_failing};
ghost use Rattle.finder.specs.Piece.{IsStep, count_of};

use crate::fault::FindFault;
use crate::piece::piece_count;
use crate::piece_hull::{PieceHull, piece_hull_at};
use crate::table::tables;
use certificate::{Certificate, MAX_PIECES, Piece};
use claim_file::Claim;
use intersection::kinds::Hull;
use sample_interval::SampleSource;
use sample_interval::kinds::Sample;
use span_cover::is_inside;
use std::alloc::{AllocError, Global};

/// A certificate, or why there is none.
#[derive(Debug, Drop)]
pub enum Found {
    /// A certificate that the checker accepts.
    Certificate(Certificate),
    /// The best samples of a piece don't show that the error is within the bound there.
    Nothing {
        /// The number of the first such piece, from 0.
        piece: u32,
        /// Its hull, in ticks, over the groups of servers.
        hull: Hull,
    },
}

/// Looks for a certificate of a claim, in pieces of `step_s` seconds, from 1 to 86,400.
///
/// The samples are those of all exchanges, in their order, at most 1,000,000. Each piece has one
/// entry for each server that has a sample, in the order of the servers: the samples that make its
/// interval there narrowest, the first among ties.
///
/// `TooManyPieces` comes exactly if the span has over 100,000 pieces, before any memory is taken,
/// and `Memory` if none is left.
pub fn find(
    alloc: Global,
    samples: &[Sample],
    claim: &Claim,
    step_s: u32,
) -> Result<Found, FindFault>
    requires samples { AreSamplesOf (claim_data claim.now) samples.now }
    requires few { length samples.now ≤ most_exchanges }
    requires step { IsStep step_s }
    ensures { Finds samples.now (claim_data claim.now) step_s result }
{
    find_over(alloc, samples, claim, step_s)
}

/// `find` over samples from any source, which need not be a list.
#[tactic(auto, using(crate::proofs::Answer::found_faults))]
pub fn find_over<S: SampleSource>(
    alloc: Global,
    samples: S,
    claim: &Claim,
    step_s: u32,
) -> Result<Found, FindFault>
    requires samples { AreSamplesOf (claim_data claim.now) (S.samples samples) }
    requires few { length (S.samples samples) ≤ most_exchanges }
    requires step { IsStep step_s }
    ensures { Finds (S.samples samples) (claim_data claim.now) step_s result }
{
    let count = piece_count(claim, step_s);
    if count > MAX_PIECES as u64 {
        return Err(FindFault::TooManyPieces);
    }
    let found = find_pieces(alloc, samples, claim, step_s, count as u32)?;
    Ok(found)
}

/// The pieces up to the first that fails.
#[tactic(auto, using(crate::proofs::TablePieces::read_tables))]
fn find_pieces<S: SampleSource>(
    alloc: Global,
    samples: S,
    claim: &Claim,
    step_s: u32,
    count: u32,
) -> Result<Found, AllocError>
    requires samples { AreSamplesOf (claim_data claim.now) (S.samples samples) }
    requires few { length (S.samples samples) ≤ most_exchanges }
    requires count { count ≡ count_of (claim_data claim.now) step_s }
    ensures { IfOk result (λ found. data_of found
        ≡ found_without (S.samples samples) (claim_data claim.now) step_s
        (first_failing (S.samples samples) (claim_data claim.now) step_s)) }
{
    let tables = tables(alloc, samples, claim, step_s, count)?;
    let mut pieces = Vec::with_capacity(alloc, count as usize)?;
    for number in 0..count {
        let PieceHull {
            stretch,
            entries,
            hull,
            ..
        } = piece_hull_at(samples, claim, step_s, tables.as_slice(), number);
        if !is_inside(claim.bound, hull) {
            return Ok(Found::Nothing {
                piece: number,
                hull,
            });
        }
        pieces.push(Piece {
            upto: stretch.end as u64,
            entries,
        })?;
    }
    Ok(Found::Certificate(Certificate { pieces }))
}

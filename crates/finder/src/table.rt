//! The best samples of each server.

ghost use Rattle.std.specs.Prelude.{◌≡◌, ℕ, ℤ, ◌≤◌, ◌<◌, length, All, IfOk, slice_get};
ghost use Rattle.finder.specs.Common.{filter_map, data_of, most_exchanges, IsLawfulSample, ArePieces, IsPieceAt};
ghost use Rattle.finder.specs.Entry.{best_entries};
ghost use Rattle.finder.specs.Fewest.{stretch_over};
ghost use Rattle.finder.specs.Piece.{stretch_at};

use crate::piece::piece_ends;
use claim_file::Claim;
use sample_interval::SampleSource;
use std::alloc::{AllocError, Global};
use sweep::{best_of_pieces, servers_of};

/// For each server that has a sample, in the order of the servers, its best samples in each of the
/// first `count` pieces.
#[tactic(auto, using(std::proofs::lemmas::Int::ints))]
pub(crate) fn tables<S: SampleSource>(
    alloc: Global,
    samples: S,
    claim: &Claim,
    step_s: u32,
    count: u32,
) -> Result<Vec<Vec<(u32, u32)>>, AllocError>
    requires samples { All IsLawfulSample (S.samples samples) }
    requires few { length (S.samples samples) ≤ most_exchanges }
    ensures few { IfOk result (λ tables. length tables.items ≤ length claim.now.servers.items) }
    ensures long { IfOk result (λ tables.
        All (λ table. length table.items ≡ count) tables.items) }
    ensures best { IfOk result (λ tables. (k : ℕ) → k < count →
        filter_map (λ table. slice_get table.items k) tables.items
        ≡ best_entries (S.samples samples) (data_of claim.now)
        (stretch_at (data_of claim.now) step_s k)) }
{
    let ends = piece_ends(alloc, claim.first, claim.last, step_s, count)?;
    let tables = tables_over(alloc, samples, claim, claim.first, ends.as_slice())?;
    Ok(tables)
}

/// The same for the pieces that end at `ends`, the first of which begins at `first`. These are Unix
/// ticks, from 0 to below 2^64, and never fall.
pub(crate) fn tables_over<S: SampleSource>(
    alloc: Global,
    samples: S,
    claim: &Claim,
    first: i128,
    ends: &[i128],
) -> Result<Vec<Vec<(u32, u32)>>, AllocError>
    requires samples { All IsLawfulSample (S.samples samples) }
    requires few { length (S.samples samples) ≤ most_exchanges }
    requires pieces { ArePieces first ends.now }
    ensures few { IfOk result (λ tables. length tables.items ≤ length claim.now.servers.items) }
    ensures long { IfOk result (λ tables.
        All (λ table. length table.items ≡ length ends.now) tables.items) }
    ensures best { IfOk result (λ tables. (k : ℕ) (p q : ℤ) → IsPieceAt first ends.now k p q →
        filter_map (λ table. slice_get table.items k) tables.items
        ≡ best_entries (S.samples samples) (data_of claim.now) (stretch_over p q)) }
{
    let servers = servers_of(alloc, samples)?;
    let mut tables = Vec::new(alloc);
    for server in 0..claim.servers.len() {
        let table = best_of_pieces(
            alloc,
            samples,
            servers.as_slice(),
            server as u8,
            first,
            ends,
            claim.drift_ppb,
        )?;
        if let Some(table) = table {
            tables.push(table)?;
        }
    }
    Ok(tables)
}

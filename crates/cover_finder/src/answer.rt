//! What settles a claim, by a certificate of either form.

ghost use Rattle.std.specs.Prelude.{◌≡◌, ◌≤◌, length, map, All, IsTrue};
ghost use Rattle.cover_finder.specs.Answer.{Answers, IsBeyondPieces, is_unsettled};
ghost use Rattle.cover_finder.specs.Common.{claim_data, IsLawful, Settles};

use crate::search::{Found, find_by_covers};
use claim_file::Claim;
use cover_certificate::CoverCertificate;
use finder::{FindFault, Settled};
use pairing::ToExchange;
use std::alloc::Global;

/// One of six answers to a claim, with what proves it.
#[derive(Drop)]
pub enum Answer {
    /// What settles it without covers, or that this leaves it open.
    OfFinder(Settled),
    /// The claim is shown by covers, and by no certificate of pieces.
    ShownByCovers(CoverCertificate),
}

/// Whether a course fits, and neither a certificate of pieces nor a refutation was found.
fn is_open<X: ToExchange>(
    exchanges: &[X],
    claim: &Claim,
    settled: &Result<Settled, FindFault>,
) -> bool
    requires { Settles (claim_data claim.now) (map X.shown exchanges.now) settled.now }
    ensures exact { result ≡ is_unsettled settled.now }
    ensures beyond { IsTrue result →
        IsBeyondPieces (claim_data claim.now) (map X.shown exchanges.now) }
{
    matches!(
        settled,
        Ok(Settled::Open { .. }) | Err(FindFault::TooManyPieces)
    )
}

/// Settles a claim as [`finder::settle`] does, or by what is found by covers where that leaves it
/// open, or would have too many pieces.
///
/// It stays open only where an error that the exchanges admit is less than two ticks short of being
/// beyond the bound, or where there are 64 minimal covers or more, or more pieces than may be.
///
/// There are at most 1,000,000 exchanges. `TooManyPieces` comes if neither form has few enough
/// pieces and no refutation is found, and `Memory` if none is left.
pub fn settle<X: ToExchange>(
    alloc: Global,
    exchanges: &[X],
    claim: &Claim,
) -> Result<Answer, FindFault>
    requires exchanges { All (IsLawful (length claim.now.servers.items))
        (map X.shown exchanges.now) }
    requires few { length exchanges.now ≤ 1_000_000 }
    ensures { Answers (claim_data claim.now) (map X.shown exchanges.now) result }
{
    let settled = finder::settle(alloc, exchanges, claim);
    if !is_open(exchanges, claim, &settled) {
        return Ok(Answer::OfFinder(settled?));
    }
    match find_by_covers(alloc, exchanges, claim)? {
        Found::Certificate(certificate) => Ok(Answer::ShownByCovers(certificate)),
        Found::Refutation(refutation) => Ok(Answer::OfFinder(Settled::Refuted(refutation))),
        Found::Nothing => Ok(Answer::OfFinder(settled?)),
    }
}

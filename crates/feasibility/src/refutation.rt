//! Whether a refutation stands if the clock may drift.

ghost use Rattle.std.specs.Prelude.{◌≡◌, IfOk, length, map, All};
ghost use Rattle.feasibility.specs.Common.{refutation_data, data_of as claim_data, IsLawful as IsLawfulExchange, IsWithinRange};
ghost use Rattle.feasibility.specs.DriftRefutation.{mark_of};
ghost use Rattle.feasibility.specs.DriftSettlement.{SettlesWithDrift};
ghost use Rattle.feasibility.specs.DriftTest.{do_agree, is_refuted_with_drift};

use crate::kept_marks::KeptMarks;
use crate::laws::refutations_are_settled;
use certificate::Refutation;
use checker::is_against;
use claim_file::Claim;
use error_marks::Mark;
use pairing::ToExchange;
use std::alloc::{AllocError, Global};

/// Whether the exchanges and the refutation refute the claim, if the clock's error may drift as the
/// claim grants.
///
/// It is true exactly if these hold: the refutation's error is beyond the bound to one side or the
/// other; its reading lies in the span; the servers that it names as false are different numbers of
/// listed servers, of at most `false_max` groups; and some course of events fits the exchanges in
/// which no other server is false and the error is the refutation's at its reading. Then no
/// certificate gets a yes. Memory is taken for two marks of each exchange, of 32 bytes each.
pub fn check_refutation_with_drift<X: ToExchange>(
    alloc: Global,
    exchanges: &[X],
    claim: &Claim,
    refutation: &Refutation,
) -> Result<bool, AllocError>
    requires exchanges { All (IsLawfulExchange (length claim.now.servers.items))
        (map X.shown exchanges.now) }
    ensures settles { IfOk result (SettlesWithDrift (claim_data claim.now)
        (map X.shown exchanges.now) (refutation_data refutation.now)) }
    ensures tested { IfOk result (λ stands. stands ≡ is_refuted_with_drift (claim_data claim.now)
        (map X.shown exchanges.now) (refutation_data refutation.now)) }
{
    refutations_are_settled();
    if is_against(claim, refutation) {
        do_agree(alloc, exchanges, claim, refutation)
    } else {
        Ok(false)
    }
}

/// Whether no exchange is impossible and no two marks contradict each other, the refutation's own
/// among them, if just the servers that it names are false.
fn do_agree<X: ToExchange>(
    alloc: Global,
    exchanges: &[X],
    claim: &Claim,
    refutation: &Refutation,
) -> Result<bool, AllocError>
    requires exchanges { All (IsLawfulExchange (length claim.now.servers.items))
        (map X.shown exchanges.now) }
    ensures { IfOk result (λ agree. agree ≡ do_agree (claim_data claim.now)
        (map X.shown exchanges.now) (refutation_data refutation.now)) }
{
    let mut kept = KeptMarks::of_one(alloc, mark_of(refutation))?;
    let is_possible = kept.add_all(exchanges, claim, refutation.liars.as_slice())?;
    Ok(is_possible && kept.are_compatible(claim.drift_ppb))
}

/// The mark that a refutation sets: its error at its reading.
pub(crate) fn mark_of(refutation: &Refutation) -> Mark
    ensures exact { result ≡ mark_of (refutation_data refutation.now) }
    ensures range { IsWithinRange result }
{
    Mark {
        place: i128::from(refutation.reading),
        error: i128::from(refutation.error),
    }
}

//! Whether any course of events fits.

ghost use Rattle.std.specs.Prelude.{IfOk, length, map, All};
ghost use Rattle.feasibility.specs.Common.{data_of as claim_data, IsLawful as IsLawfulExchange};
ghost use Rattle.feasibility.specs.DriftSettlement.{SettlesFit};

use crate::laws::fits_are_settled;
use crate::table::conflicts_of;
use claim_file::Claim;
use pairing::ToExchange;
use std::alloc::{AllocError, Global};

/// Whether some course of events fits the exchanges and the claim: one in which at most `false_max`
/// groups hold a false server, whichever they are.
///
/// If none fits, something that the claim grants isn't true in this capture. Memory is taken for
/// two marks of each exchange, of 32 bytes each.
pub fn course_fits<X: ToExchange>(
    alloc: Global,
    exchanges: &[X],
    claim: &Claim,
) -> Result<bool, AllocError>
    requires exchanges { All (IsLawfulExchange (length claim.now.servers.items))
        (map X.shown exchanges.now) }
    ensures { IfOk result (SettlesFit (claim_data claim.now) (map X.shown exchanges.now)) }
{
    fits_are_settled();
    let found = conflicts_of(alloc, exchanges, claim)?;
    Ok(found.has_cover(claim.false_max))
}

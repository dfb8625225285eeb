//! The search for a refutation, where the pieces of cases stop.

ghost use Rattle.std.specs.Prelude.{◌≡◌, length, map, All, IfOk};
ghost use Rattle.cover_finder.specs.Common.{claim_data, conflicts_data, IsConflictTable, IsLawful};
ghost use Rattle.cover_finder.specs.Search.{IsRefutedIfFound};
ghost use Rattle.cover_finder.specs.Table.{AreListed};

use crate::reach::{Search, Stop};
use crate::table::Table;
use certificate::{MAX_PIECES, Refutation};
use claim_file::Claim;
use feasibility::{Conflicts, Groups};
use finder::find_with_cover;
use pairing::ToExchange;
use std::alloc::{AllocError, Global};

/// How many ticks beyond the bound a hull over a tick may reach, though no whole error at a whole
/// reading there is beyond it. The marks' moves are rounded up, and the tick has two ends.
const MAX_ROUNDING: u8 = 3;

/// A refutation where the pieces of some case stop under a bound of so many ticks more, if one is
/// found.
fn refutation_under<X: ToExchange>(
    alloc: Global,
    exchanges: &[X],
    claim: &Claim,
    conflicts: &Conflicts,
    covers: &[Groups],
    tables: &[Table],
    more: u8,
) -> Result<Option<Refutation>, AllocError>
    requires exchanges { All (IsLawful (length claim.now.servers.items))
        (map X.shown exchanges.now) }
    requires groups { (conflicts_data conflicts.now).groups ≡ length claim.now.groups.items }
    requires table { IsConflictTable (claim_data claim.now) (map X.shown exchanges.now)
        (conflicts_data conflicts.now).is_broken (conflicts_data conflicts.now).is_edge }
    requires tables { AreListed (length claim.now.groups.items) tables.now }
    ensures { IfOk result
        (IsRefutedIfFound (claim_data claim.now) (map X.shown exchanges.now)) }
{
    let mut left = MAX_PIECES;
    for out in covers {
        let out = *out;
        let search = Search {
            tables,
            claim,
            out,
            more,
        };
        let (pieces, stop) = search.longest_pieces(alloc, left)?;
        left = left.saturating_sub(pieces.len());
        if let Stop::Unshown(readings) = stop
            && let Some(found) = find_with_cover(exchanges, claim, conflicts, out, &readings)
        {
            return Ok(Some(found));
        }
    }
    Ok(None)
}

/// A refutation where the pieces of some case stop, if one is found: under the claim's bound, or a
/// few ticks more, where they stop at an error that rounding can't be the cause of.
pub(crate) fn find_refutation<X: ToExchange>(
    alloc: Global,
    exchanges: &[X],
    claim: &Claim,
    conflicts: &Conflicts,
    covers: &[Groups],
    tables: &[Table],
) -> Result<Option<Refutation>, AllocError>
    requires exchanges { All (IsLawful (length claim.now.servers.items))
        (map X.shown exchanges.now) }
    requires groups { (conflicts_data conflicts.now).groups ≡ length claim.now.groups.items }
    requires table { IsConflictTable (claim_data claim.now) (map X.shown exchanges.now)
        (conflicts_data conflicts.now).is_broken (conflicts_data conflicts.now).is_edge }
    requires tables { AreListed (length claim.now.groups.items) tables.now }
    ensures { IfOk result
        (IsRefutedIfFound (claim_data claim.now) (map X.shown exchanges.now)) }
{
    for more in 0..=MAX_ROUNDING {
        let found = refutation_under(alloc, exchanges, claim, conflicts, covers, tables, more)?;
        if found.is_some() {
            return Ok(found);
        }
    }
    Ok(None)
}

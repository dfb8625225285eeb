//! Refutations with drift that are found.

ghost use Rattle.std.specs.Prelude.{◌≡◌, ◌≤ℤ◌, true, pos, length, map, All, IfNone, IfSome, MatchOption};
ghost use Rattle.finder.specs.Common.{int_min, refutation_data, data_of as claim_data, IsConflictTable, SettlesWithDrift, holds, IsLawful as IsLawfulExchange};
ghost use Rattle.feasibility.specs.ConflictsView.{data_of};
ghost use Rattle.finder.specs.Leeway.{IsHeld, IsHeldAtAll, greatest_of, turned, IsBounded, IsMade};
ghost use Rattle.finder.specs.declared.side.Side.{Side};

use crate::leeway::{false_groups, least_leeway, leeways_at};
use crate::nearest_refutation::{MAX_ERROR_ABOVE, MAX_ERROR_BELOW};
use crate::side::Side;
use certificate::Refutation;
use claim_file::Claim;
use feasibility::{Conflicts, Groups, check_refutation_by_conflicts};
use pairing::ToExchange;

/// Where a refutation is looked for.
#[derive(Clone, Copy)]
struct Place {
    /// The groups that are taken for false.
    cover: Groups,
    /// The reading, in Unix ticks. One outside the span finds none.
    reading: u64,
}

/// A refutation with drift with these groups taken for false, at one of these readings, if one is
/// found. It takes no memory, and looks twice at each exchange for each reading and side.
///
/// As many more groups may be false as the claim allows: those that let least be at the reading.
/// Then the error is the greatest that the other groups let be, to one side of zero or the other.
/// If it is beyond the bound and the refutation stands, that is the answer; where 64 bits don't
/// hold the error, with the greatest that they hold. So none may be found though there is one, if
/// it lies elsewhere, or if its error is next to the bound.
pub fn find_with_cover<X: ToExchange>(
    exchanges: &[X],
    claim: &Claim,
    conflicts: &Conflicts,
    cover: Groups,
    readings: &[u64],
) -> Option<Refutation>
    requires exchanges { All (IsLawfulExchange (length claim.now.servers.items))
        (map X.shown exchanges.now) }
    requires groups { (data_of conflicts.now).groups ≡ length claim.now.groups.items }
    requires table { IsConflictTable (claim_data claim.now) (map X.shown exchanges.now)
        (data_of conflicts.now).is_broken (data_of conflicts.now).is_edge }
    ensures settles { IfSome result (λ found. SettlesWithDrift
        (claim_data claim.now) (map X.shown exchanges.now) (refutation_data found) true) }
    ensures held { IfNone result (IsHeldAtAll (claim_data claim.now)
        (map X.shown exchanges.now) readings.now cover) }
{
    for reading in readings {
        let reading = *reading;
        if let Some(found) = find_at(exchanges, claim, conflicts, Place { cover, reading }) {
            return Some(found);
        }
    }
    None
}

/// A refutation at a place that stands, if one is found.
fn find_at<X: ToExchange>(
    exchanges: &[X],
    claim: &Claim,
    conflicts: &Conflicts,
    place: Place,
) -> Option<Refutation>
    requires exchanges { All (IsLawfulExchange (length claim.now.servers.items))
        (map X.shown exchanges.now) }
    requires groups { (data_of conflicts.now).groups ≡ length claim.now.groups.items }
    requires table { IsConflictTable (claim_data claim.now) (map X.shown exchanges.now)
        (data_of conflicts.now).is_broken (data_of conflicts.now).is_edge }
    ensures settles { IfSome result (λ found. SettlesWithDrift
        (claim_data claim.now) (map X.shown exchanges.now) (refutation_data found) true) }
    ensures held { IfNone result ((side : Side) → IsHeld (claim_data claim.now)
        (map X.shown exchanges.now) (holds place.cover) place.reading side) }
{
    if let Some(found) = find_on(exchanges, claim, conflicts, place, Side::Above) {
        return Some(found);
    }
    find_on(exchanges, claim, conflicts, place, Side::Below)
}

/// The same with an error on one side of zero.
fn find_on<X: ToExchange>(
    exchanges: &[X],
    claim: &Claim,
    conflicts: &Conflicts,
    place: Place,
    side: Side,
) -> Option<Refutation>
    requires exchanges { All (IsLawfulExchange (length claim.now.servers.items))
        (map X.shown exchanges.now) }
    requires groups { (data_of conflicts.now).groups ≡ length claim.now.groups.items }
    requires table { IsConflictTable (claim_data claim.now) (map X.shown exchanges.now)
        (data_of conflicts.now).is_broken (data_of conflicts.now).is_edge }
    ensures settles { IfSome result (λ found. SettlesWithDrift
        (claim_data claim.now) (map X.shown exchanges.now) (refutation_data found) true) }
    ensures held { IfNone result (IsHeld (claim_data claim.now)
        (map X.shown exchanges.now) (holds place.cover) place.reading side) }
{
    let leeways = leeways_at(exchanges, claim, side, place.reading);
    let false_groups = false_groups(claim, place.cover, &leeways);
    let refutation = candidate(claim, place.reading, side, &leeways, false_groups)?;
    if check_refutation_by_conflicts(exchanges, claim, conflicts, false_groups, &refutation) {
        Some(refutation)
    } else {
        None
    }
}

/// The refutation at a reading with these groups false, if its error is beyond the bound.
fn candidate(
    claim: &Claim,
    reading: u64,
    side: Side,
    leeways: &[i128; 32],
    false_groups: Groups,
) -> Option<Refutation>
    ensures { MatchOption result
        (IsBounded claim.now.bound leeways.now (holds false_groups))
        (λ made. IsMade (claim_data claim.now) side reading leeways.now (holds false_groups)
        (refutation_data made)) }
{
    let most = least_leeway(leeways, false_groups);
    if most <= claim.bound {
        return None;
    }
    Some(Refutation {
        error: error_within(side, most),
        liars: false_groups.servers(claim),
        reading,
    })
}

/// The error furthest from zero on this side, of at most so many ticks, that 64 bits hold.
fn error_within(side: Side, most: i128) -> i64
    requires { pos 0 ≤ℤ most }
    ensures { result ≡ turned side (int_min most (greatest_of side)) }
{
    match side {
        Side::Above => most.min(MAX_ERROR_ABOVE) as i64,
        Side::Below => -most.min(MAX_ERROR_BELOW) as i64,
    }
}

//! Whether a refutation stands that takes all servers of some groups for false.

ghost use Rattle.std.specs.Prelude.{◌≡◌, ◌↔◌, false, IsTrue, length, map, All};
ghost use Rattle.feasibility.specs.Common.{refutation_data, data_of as claim_data, IsWithinRange, IsLawful as IsLawfulExchange};
ghost use Rattle.feasibility.specs.ConflictTable.{IsConflictTable};
ghost use Rattle.feasibility.specs.Conflicts.{IsCover};
ghost use Rattle.feasibility.specs.ConflictsView.{data_of};
ghost use Rattle.feasibility.specs.Cover.{is_of, servers_of};
ghost use Rattle.feasibility.specs.DriftRefutation.{IsCompatibleOutside, IsCompatibleWith};
ghost use Rattle.feasibility.specs.DriftSettlement.{SettlesWithDrift};
ghost use Rattle.feasibility.specs.Groups.{holds};

use crate::conflicts::Conflicts;
use crate::groups::Groups;
use crate::laws::refutations_are_settled;
use crate::refutation::mark_of;
use certificate::Refutation;
use checker::is_against;
use claim_file::Claim;
use error_marks::{Mark, are_compatible, high_mark, low_mark};
use pairing::{Exchange, ToExchange};

/// Whether the exchanges and a refutation refute the claim, as
/// [`check_refutation_with_drift`](crate::check_refutation_with_drift) tells it, if the servers
/// that it names are all those of some groups.
///
/// `conflicts` is what [`conflicts_of`](crate::conflicts_of) makes of the same exchanges. It tells
/// whether the marks of the other groups contradict each other, so only the refutation's own is
/// held against them: it looks once at each exchange, and takes no memory.
pub fn check_refutation_by_conflicts<X: ToExchange>(
    exchanges: &[X],
    claim: &Claim,
    conflicts: &Conflicts,
    false_groups: Groups,
    refutation: &Refutation,
) -> bool
    requires exchanges { All (IsLawfulExchange (length claim.now.servers.items))
        (map X.shown exchanges.now) }
    requires groups { (data_of conflicts.now).groups ≡ length claim.now.groups.items }
    requires table { IsConflictTable (claim_data claim.now) (map X.shown exchanges.now)
        (data_of conflicts.now).is_broken (data_of conflicts.now).is_edge }
    requires liars { refutation.now.liars.items
        ≡ servers_of (claim_data claim.now) (holds false_groups) }
    ensures { SettlesWithDrift (claim_data claim.now) (map X.shown exchanges.now)
        (refutation_data refutation.now) result }
{
    refutations_are_settled();
    is_against(claim, refutation)
        && is_left(
            exchanges,
            claim,
            conflicts,
            false_groups,
            mark_of(refutation),
        )
}

/// Whether the groups outside a set leave a mark: the set is a cover, and the mark is compatible
/// with theirs.
fn is_left<X: ToExchange>(
    exchanges: &[X],
    claim: &Claim,
    conflicts: &Conflicts,
    groups: Groups,
    mark: Mark,
) -> bool
    requires exchanges { All (IsLawfulExchange (length claim.now.servers.items))
        (map X.shown exchanges.now) }
    requires mark { IsWithinRange mark }
    ensures { IsTrue result ↔ (IsCover (data_of conflicts.now) (holds groups)
        × IsCompatibleOutside (claim_data claim.now) (map X.shown exchanges.now)
        (holds groups) mark) }
{
    conflicts.are_covered_by(groups) && is_compatible_outside(exchanges, claim, groups, mark)
}

/// Whether a mark, as a low one and as a high one, is compatible with the marks of each exchange
/// with a server outside these groups.
fn is_compatible_outside<X: ToExchange>(
    exchanges: &[X],
    claim: &Claim,
    groups: Groups,
    mark: Mark,
) -> bool
    requires exchanges { All (IsLawfulExchange (length claim.now.servers.items))
        (map X.shown exchanges.now) }
    requires mark { IsWithinRange mark }
    ensures { IsTrue result ↔ IsCompatibleOutside (claim_data claim.now)
        (map X.shown exchanges.now) (holds groups) mark }
{
    for exchange in exchanges {
        if !is_inside_or_compatible(&exchange.to_exchange(), claim, groups, mark) {
            return false;
        }
    }
    true
}

/// Whether an exchange is with a server of these groups, or a mark is compatible with its marks.
fn is_inside_or_compatible(exchange: &Exchange, claim: &Claim, groups: Groups, mark: Mark) -> bool
    requires exchange { IsLawfulExchange (length claim.now.servers.items) exchange.now }
    requires mark { IsWithinRange mark }
    ensures { IsTrue result
        ↔ (is_of (claim_data claim.now) (holds groups) exchange.now.server ≡ false →
        IsCompatibleWith (claim_data claim.now) mark exchange.now) }
{
    groups.has_server(claim, exchange.server) || is_compatible(exchange, claim, mark)
}

/// Whether a mark, as a low one and as a high one, is compatible with both marks of an exchange.
fn is_compatible(exchange: &Exchange, claim: &Claim, mark: Mark) -> bool
    requires exchange { IsLawfulExchange (length claim.now.servers.items) exchange.now }
    requires mark { IsWithinRange mark }
    ensures { IsTrue result ↔ IsCompatibleWith (claim_data claim.now) mark exchange.now }
{
    are_compatible(claim.drift_ppb, mark, high_mark(exchange, claim.reading))
        && are_compatible(claim.drift_ppb, low_mark(exchange, claim.reading), mark)
}

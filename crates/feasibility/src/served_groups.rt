//! Which groups have an exchange at all.

ghost use Rattle.std.specs.Prelude.{◌≡◌, ℕ, length, map, All, count_by};
ghost use Rattle.feasibility.specs.Common.{data_of as claim_data, IsLawful as IsLawfulExchange, numbers_below};
ghost use Rattle.feasibility.specs.ServedGroups.{has_exchange, count_with_exchange};
ghost use Rattle.feasibility.specs.Groups.{holds};

use crate::groups::Groups;
use claim_file::Claim;
use pairing::ToExchange;

/// The groups that have an exchange: one with a server of theirs. It takes no memory.
///
/// If they are no more than `false_max`, the exchanges are no evidence: whatever the error, some
/// course of events fits ([`laws`](crate::laws)).
pub fn groups_with_exchanges<X: ToExchange>(exchanges: &[X], claim: &Claim) -> Groups
    requires exchanges { All (IsLawfulExchange (length claim.now.servers.items))
        (map X.shown exchanges.now) }
    ensures exact { (group : ℕ) → holds result group
        ≡ has_exchange (claim_data claim.now) (map X.shown exchanges.now) group }
    ensures count { count_by (holds result) (numbers_below (length claim.now.groups.items))
        ≡ count_with_exchange (claim_data claim.now) (map X.shown exchanges.now) }
{
    let mut found = Groups::default();
    for exchange in exchanges {
        let exchange = exchange.to_exchange();
        found = found.with(claim.groups[exchange.server as usize]);
    }
    found
}

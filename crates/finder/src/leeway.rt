//! How great an error the exchanges of each group let be at a reading.

ghost use Rattle.std.specs.Prelude.{◌≡◌, ◌↔◌, ◌^◌, ◌*◌, ◌/◌, ◌-◌, ◌<◌, ◌≤◌, ℤ, pos, ◌≤ℤ◌, unsigned_abs, slice_index, length, map, All, MatchOption, count_by};
ghost use Rattle.finder.specs.Common.{data_of as claim_data, holds, AreCompatible, IsWithinRange, IsLawful as IsLawfulExchange, IsRate, numbers_below};
ghost use Rattle.finder.specs.Leeway.{AreLeeways, IsLimit, IsNarrowed, IsTightest, IsUnlimited, mark_at};

use crate::side::Side;
use claim_file::Claim;
use error_marks::Mark;
use feasibility::Groups;
use pairing::ToExchange;
use sample_interval::PARTS;

/// What a group without an exchange lets the error be, in ticks.
const NO_LIMIT: i128 = i128::MAX;

/// How much the error can change while the clock advances, in whole ticks: by `rate` parts in
/// `parts` of the distance.
fn change(rate: u32, parts: u128, distance: u128) -> u128
    requires rate { IsRate rate }
    requires parts { 0 < parts }
    requires distance { distance ≤ 2 ^ 75 }
    ensures exact { result ≡ rate * distance / parts }
    ensures range { result ≤ 2 ^ 105 }
{
    u128::from(rate) * distance / parts
}

/// The greatest whole error that a mark above it lets be at a reading, both in ticks.
///
/// From the reading to a mark behind it the error can fall, and from a mark before it rise.
fn most_under(drift_ppb: u32, mark: Mark, reading: i128) -> i128
    requires rate { IsRate drift_ppb }
    requires mark { IsWithinRange mark }
    requires reading { unsigned_abs reading ≤ 2 ^ 64 }
    ensures { (error : ℤ) →
        (error ≤ℤ result) ↔ AreCompatible drift_ppb (mark_at reading error) mark }
{
    let rate = u128::from(drift_ppb);
    let parts = if reading <= mark.place {
        PARTS - rate
    } else {
        PARTS + rate
    };
    let distance = (mark.place - reading).unsigned_abs();
    mark.error + change(drift_ppb, parts, distance) as i128
}

/// The group of a server.
pub(crate) fn group_of(claim: &Claim, server: u8) -> u8
    requires listed { server < length claim.now.servers.items }
    ensures exact { result ≡ slice_index claim.now.groups.items server }
    ensures range { result < 32 }
{
    claim.groups[usize::from(server)]
}

/// The greatest whole error, in ticks, that the exchanges of each group let be at a reading, on
/// this side of zero. It looks once at each exchange, and takes no memory.
pub(crate) fn leeways_at<X: ToExchange>(
    exchanges: &[X],
    claim: &Claim,
    side: Side,
    reading: u64,
) -> [i128; 32]
    requires exchanges { All (IsLawfulExchange (length claim.now.servers.items))
        (map X.shown exchanges.now) }
    ensures { AreLeeways (claim_data claim.now) (map X.shown exchanges.now)
        (length (map X.shown exchanges.now)) side (pos reading) result }
{
    let place = side.turned(i128::from(reading));
    let mut leeways = [NO_LIMIT; 32];
    for held in exchanges {
        let exchange = held.to_exchange();
        let mark = side.mark_of(&exchange, claim.reading);
        let group = usize::from(group_of(claim, exchange.server));
        leeways[group] = leeways[group].min(most_under(claim.drift_ppb, mark, place));
    }
    leeways
}

/// The group that lets least be, of those that aren't in a set and have an exchange.
pub(crate) fn tightest(leeways: &[i128; 32], left_out: Groups) -> Option<u8>
    ensures { MatchOption result (IsUnlimited leeways.now (holds left_out))
        (IsTightest leeways.now (holds left_out)) }
{
    let mut least = NO_LIMIT;
    let mut tightest = 0u8;
    for group in 0..32u8 {
        let most = leeways[usize::from(group)];
        if !left_out.contains(group) && most < least {
            least = most;
            tightest = group;
        }
    }
    if least < NO_LIMIT {
        Some(tightest)
    } else {
        None
    }
}

/// The least that a group lets be, of those that aren't in a set, in ticks.
pub(crate) fn least_leeway(leeways: &[i128; 32], left_out: Groups) -> i128
    ensures { IsLimit leeways.now (holds left_out) result }
{
    match tightest(leeways, left_out) {
        Some(group) => leeways[usize::from(group)],
        None => NO_LIMIT,
    }
}

/// The groups of a cover, and as many more as the claim lets be false: those that let least be.
pub(crate) fn false_groups(claim: &Claim, cover: Groups, leeways: &[i128; 32]) -> Groups
    ensures { IsNarrowed leeways.now
        (claim.now.false_max - count_by (holds cover) (numbers_below 32)) (holds cover)
        (holds result) }
{
    let mut found = cover;
    for _added in 0..claim.false_max.saturating_sub(cover.count(32)) {
        if let Some(group) = tightest(leeways, found) {
            found = found.with(group);
        }
    }
    found
}

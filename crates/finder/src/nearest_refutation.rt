//! Refutations that are found.

ghost use Rattle.std.specs.Prelude.{◌≡◌, ◌^◌, ◌<◌, ◌≤◌, ℤ, ℕ, pos, ◌≤ℤ◌, ◌<ℤ◌, unsigned_abs, List, length, map, All, IsNone, IfSome, option_map};
ghost use Rattle.finder.specs.Common.{Exchange, refutation_data, data_of as claim_data, IsLawful as IsLawfulExchange};
ghost use Rattle.finder.specs.Leeway.{least_on, turned};
ghost use Rattle.finder.specs.Room.{AreRooms, possible_by, room_at};
ghost use Rattle.finder.specs.NearestRefutation.{IsErrorOf64Bits, IsNearest, IsNearestRefutation, NoneIsRefuted, nearest_error, nearest_refutation};

use crate::room::{is_possible, refusing, rooms_of};
use crate::side::Side;
use certificate::Refutation;
use claim_file::Claim;
use intersection::kinds::Interval;
use pairing::ToExchange;

/// The greatest error of a refutation, in ticks.
pub(crate) const MAX_ERROR_ABOVE: i128 = (1 << 63) - 1;

/// How far below zero the least error of a refutation is, in ticks.
pub(crate) const MAX_ERROR_BELOW: i128 = 1 << 63;

/// Looks for a refutation of a claim: the one with the least error above the bound, or, if there is
/// none, the one with the greatest error below it on the other side. It names just the servers that
/// have an exchange with no room for that error, in their order, and the first reading of the span.
/// It takes no memory, and looks once at each exchange.
#[tactic(auto, using(std::proofs::lemmas::Int::ints))]
pub fn find_refutation<X: ToExchange>(exchanges: &[X], claim: &Claim) -> Option<Refutation>
    requires exchanges { All (IsLawfulExchange (length claim.now.servers.items))
        (map X.shown exchanges.now) }
    ensures exact { option_map refutation_data result
        ≡ nearest_refutation (claim_data claim.now) (map X.shown exchanges.now) }
    ensures found { IfSome result (λ found. IsNearestRefutation
        (claim_data claim.now) (map X.shown exchanges.now) (refutation_data found)) }

    // With no other error, servers or reading is a refutation accepted.
    ensures none { IsNone result
        → NoneIsRefuted (claim_data claim.now) (map X.shown exchanges.now) }
{
    let rooms = rooms_of(exchanges, claim.reading);
    let error = nearest_error(&rooms, claim)?;
    Some(Refutation {
        error: error as i64,
        liars: refusing(&rooms, claim.servers.len() as u8, error),
        reading: claim.first as u64,
    })
}

/// The nearest error, if each server leaves room for just the errors of its interval.
fn nearest_error(rooms: &[Interval; 32], claim: &Claim) -> Option<i128>
    requires low { (server : ℕ) → server < 32 →
        unsigned_abs (room_at rooms.now server).lo ≤ 2 ^ 80 }
    requires high { (server : ℕ) → server < 32 →
        unsigned_abs (room_at rooms.now server).hi ≤ 2 ^ 80 }
    ensures exact { (xs : List Exchange) → AreRooms claim.now.reading xs rooms.now →
        result ≡ nearest_error (claim_data claim.now) xs }
    ensures in_range { IfSome result IsErrorOf64Bits }
{
    if let Some(error) = nearest(rooms, claim, Side::Above, MAX_ERROR_ABOVE) {
        return Some(error);
    }
    match nearest(rooms, claim, Side::Below, MAX_ERROR_BELOW) {
        Some(error) => Some(-error),
        None => None,
    }
}

/// How far from zero the first error on this side is, of those beyond the claim's bound and up to a
/// limit, that at most `false_max` groups refuse.
///
/// If an error has this property, then so has the one before it, unless some server's room begins
/// at the error: each server that refuses the one before refuses the error too. So only the first
/// error of all is looked at, and where the rooms begin.
fn nearest(rooms: &[Interval; 32], claim: &Claim, side: Side, limit: i128) -> Option<i128>
    requires low { (server : ℕ) → server < 32 →
        unsigned_abs (room_at rooms.now server).lo ≤ 2 ^ 80 }
    requires high { (server : ℕ) → server < 32 →
        unsigned_abs (room_at rooms.now server).hi ≤ 2 ^ 80 }
    requires beyond { claim.now.bound <ℤ limit }
    requires in_range { limit ≤ℤ pos (2 ^ 63) }
    ensures { IsNearest
        (λ error. possible_by rooms.now (claim_data claim.now) (turned side error))
        claim.now.bound limit result }
{
    let next = claim.bound + 1;
    if is_possible(rooms, claim, side.turned(next)) {
        return Some(next);
    }
    let mut first = limit + 1;
    for server in 0..32 {
        let error = least_on(side, rooms[server]);
        if claim.bound < error && error < first && is_possible(rooms, claim, side.turned(error)) {
            first = error;
        }
    }
    if first <= limit { Some(first) } else { None }
}

/// Where a room begins, on a side of zero.
fn least_on(side: Side, room: Interval) -> i128
    requires low { unsigned_abs room.lo ≤ 2 ^ 80 }
    requires high { unsigned_abs room.hi ≤ 2 ^ 80 }
    ensures exact { result ≡ least_on side room }
    ensures size { unsigned_abs result ≤ 2 ^ 80 }
{
    match side {
        Side::Above => room.lo,
        Side::Below => -room.hi,
    }
}

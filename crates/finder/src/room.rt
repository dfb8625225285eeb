//! The errors for which exchanges leave room.

ghost use Rattle.std.specs.Prelude.{◌≡◌, ◌^◌, ◌<◌, ◌≤◌, ◌≤ℤ◌, ℤ, ℕ, pos, not, unsigned_abs, filter, map, All};
ghost use Rattle.finder.specs.Common.{data_of as claim_data, leaves_out, IsLawful as IsLawfulExchange, IsOfSomeClaim, numbers_below, admits};
ghost use Rattle.finder.specs.Room.{AreRooms, IsNear, possible_by, refused_by, room_at};

use arrayvec::ArrayVec;
use checker::false_group_count;
use claim_file::Claim;
use error_marks::{high_mark, low_mark};
use intersection::kinds::Interval;
use intersection::meet;
use pairing::{Exchange, ToExchange};

/// More ticks than an error that leaves room for an exchange, or that a refutation can have.
const FAR: i128 = 1 << 80;

/// Every error.
const EVERY_ERROR: Interval = Interval { lo: -FAR, hi: FAR };

/// No error.
const NO_ERROR: Interval = Interval { lo: FAR, hi: -FAR };

/// The errors for which each server leaves room over all its exchanges, by the server's number.
pub(crate) fn rooms_of<X: ToExchange>(exchanges: &[X], allowance: i128) -> [Interval; 32]
    requires exchanges { All (IsLawfulExchange 32) (map X.shown exchanges.now) }
    requires from_zero { pos 0 ≤ℤ allowance }
    requires at_most_a_second { allowance ≤ℤ pos (2 ^ 32) }
    ensures rooms { AreRooms allowance (map X.shown exchanges.now) result }
{
    let mut rooms = [EVERY_ERROR; 32];
    for held in exchanges {
        let exchange = held.to_exchange();
        let server = usize::from(exchange.server);
        rooms[server] = meet(rooms[server], room_of(&exchange, allowance));
    }
    rooms
}

/// The errors for which an exchange leaves room.
#[inline(always)]
fn room_of(exchange: &Exchange, allowance: i128) -> Interval
    requires exchange { IsOfSomeClaim exchange.now }
    requires from_zero { pos 0 ≤ℤ allowance }
    requires at_most_a_second { allowance ≤ℤ pos (2 ^ 32) }
    ensures room { (error : ℤ) → IsNear error →
        leaves_out result error ≡ not (admits allowance error exchange.now) }
    ensures low { unsigned_abs result.lo ≤ 2 ^ 80 }
    ensures high { unsigned_abs result.hi ≤ 2 ^ 80 }
{
    if !error_marks::is_possible(exchange, allowance) {
        return NO_ERROR;
    }
    Interval {
        lo: low_mark(exchange, allowance).error,
        hi: high_mark(exchange, allowance).error,
    }
}

/// Whether a server leaves no room for an error.
pub(crate) fn is_refused(rooms: &[Interval; 32], error: i128, server: usize) -> bool
    requires { server < 32 }
    ensures { result ≡ refused_by rooms.now error server }
{
    error < rooms[server].lo || rooms[server].hi < error
}

/// The servers that leave no room for an error, in their order.
pub(crate) fn refusing(rooms: &[Interval; 32], servers: u8, error: i128) -> ArrayVec<u8, 32>
    requires { servers ≤ 32 }
    ensures { result.items ≡ filter (refused_by rooms.now error) (numbers_below servers) }
{
    let mut refusing = ArrayVec::new();
    for server in 0..servers {
        if is_refused(rooms, error, usize::from(server)) {
            refusing.push(server);
        }
    }
    refusing
}

/// Whether at most `false_max` groups hold a server that leaves no room for the error.
pub(crate) fn is_possible(rooms: &[Interval; 32], claim: &Claim, error: i128) -> bool
    ensures { result ≡ possible_by rooms.now (claim_data claim.now) error }
{
    let liars = refusing(rooms, claim.servers.len() as u8, error);
    false_group_count(claim.groups.as_slice(), liars.as_slice()) <= usize::from(claim.false_max)
}

//! To which side of zero an error is looked for.

ghost use Rattle.std.specs.Prelude.{◌≡◌, ◌↔◌, ◌^◌, ◌≤◌, ℤ, pos, ◌≤ℤ◌, unsigned_abs};
ghost use Rattle.finder.specs.Common.{ClaimData, AreCompatible, IsWithinRange, IsOfSomeClaim};
ghost use Rattle.finder.specs.Leeway.{Lets, limit_of, mark_at, turned};

use error_marks::{Mark, high_mark, low_mark};
use pairing::Exchange;

/// To which side of zero an error is looked for.
///
/// The negatives of a clock's readings and errors are those of another clock, whose high marks are
/// the first one's low marks. So what is said of errors above zero serves for those below it.
#[derive(Clone, Copy)]
pub(crate) enum Side {
    /// The clock is ahead.
    Above,
    /// The clock is behind.
    Below,
}

impl Side {
    /// A number of ticks, or its negative if the clock is behind.
    pub(crate) fn turned(self, ticks: i128) -> i128
        requires { unsigned_abs ticks ≤ 2 ^ 100 }
        ensures exact { result ≡ turned self ticks }
        ensures size { unsigned_abs result ≡ unsigned_abs ticks }
    {
        match self {
            Side::Above => ticks,
            Side::Below => -ticks,
        }
    }

    /// The mark above which the error can't lie on this side.
    ///
    /// `allowance` is how far a record time may be from the clock's reading: from 0 to 2^32 ticks.
    pub(crate) fn mark_of(self, exchange: &Exchange, allowance: i128) -> Mark
        requires exchange { IsOfSomeClaim exchange.now }
        requires from_zero { pos 0 ≤ℤ allowance }
        requires at_most_a_second { allowance ≤ℤ pos (2 ^ 32) }
        ensures range { IsWithinRange result }
        ensures value { result ≡ limit_of self allowance exchange.now }
        ensures exact { (claim : ClaimData) (reading ticks : ℤ) → claim.reading ≡ allowance →
            AreCompatible claim.drift_ppb (mark_at (turned self reading) ticks) result
            ↔ Lets claim self reading ticks exchange.now }
    {
        match self {
            Side::Above => high_mark(exchange, allowance),
            Side::Below => {
                let mark = low_mark(exchange, allowance);
                Mark {
                    place: -mark.place,
                    error: -mark.error,
                }
            }
        }
    }
}

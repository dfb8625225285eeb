//! The marks of an exchange.

ghost use Rattle.std.specs.Prelude.{◌≡◌, ◌^◌, pos, ◌≤ℤ◌, ◌↔◌, IsTrue};
ghost use Rattle.sample_interval.specs.Exchange.{IsOfSomeClaim};
ghost use Rattle.error_marks.specs.Mark.{low_mark, high_mark, IsPossible};
ghost use Rattle.error_marks.specs.Range.{IsWithinRange};

use crate::mark::Mark;
use pairing::Exchange;

/// What the request's side leaves, if the server isn't false: at the start of the request's window
/// the error is at least this.
///
/// `allowance` is how far a record time may be from the clock's reading: from 0 to 2^32 ticks.
pub fn low_mark(x: &Exchange, allowance: i128) -> Mark
    requires exchange { IsOfSomeClaim x.now }
    requires from_zero { pos 0 ≤ℤ allowance }
    requires at_most_a_second { allowance ≤ℤ pos (2 ^ 32) }
    ensures exact { result ≡ low_mark allowance x.now }
    ensures range { IsWithinRange result }
{
    let place = x.t1_low - allowance;
    Mark {
        place,
        error: place - x.t2.min(x.t3) - x.distance,
    }
}

/// What the reply's side leaves, if the server isn't false: at the end of the reply's window the
/// error is at most this.
///
/// `allowance` is how far a record time may be from the clock's reading: from 0 to 2^32 ticks.
pub fn high_mark(x: &Exchange, allowance: i128) -> Mark
    requires exchange { IsOfSomeClaim x.now }
    requires from_zero { pos 0 ≤ℤ allowance }
    requires at_most_a_second { allowance ≤ℤ pos (2 ^ 32) }
    ensures exact { result ≡ high_mark allowance x.now }
    ensures range { IsWithinRange result }
{
    let place = x.t4_high + allowance;
    Mark {
        place,
        error: place - x.t2.max(x.t3) + x.distance,
    }
}

/// Whether an exchange has four moments, one after another, for some error. If it hasn't, its
/// server is false, or the claim is.
///
/// `allowance` is how far a record time may be from the clock's reading: from 0 to 2^32 ticks.
pub fn is_possible(x: &Exchange, allowance: i128) -> bool
    requires exchange { IsOfSomeClaim x.now }
    requires from_zero { pos 0 ≤ℤ allowance }
    requires at_most_a_second { allowance ≤ℤ pos (2 ^ 32) }
    ensures { IsTrue result ↔ IsPossible allowance x.now }
{
    x.t1_low - allowance <= x.t4_high + allowance && x.t2 - x.distance <= x.t3 + x.distance
}

//! What the definitions say of true time. A law is a function that does nothing: its contract is
//! the law, for every number.

ghost use Rattle.std.specs.Prelude.{ℕ, ℤ, List, pos};
ghost use Rattle.true_time.specs.Common.{AreSamplesOf, ClaimData, Course, Hull, IsInHull, IsLawful, IsObservedIn, ReadingData, Sample};
ghost use Rattle.true_time.specs.Order as spec;
ghost use Rattle.true_time.specs.Order.{HoldsOrderOfOne, IsSo, order_of_one};
ghost use Rattle.true_time.specs.TrueTime.{HoldsTrueTime, IsThen, hull_of};
ghost use Rattle.true_time.specs.When as times;
ghost use Rattle.true_time.specs.When.{HoldsWhen, IsDuring};

use crate::when::When;
use finder::laws::best_hulls_hold_the_error;
use sample_interval::laws::widening_is_one_number;

/// In every course of events that fits, whenever the clock shows a reading, true time lies between
/// the earliest and the latest that the hull over the reading's ticks gives.
pub fn true_time_lies_between()
    ensures between { (claim : ClaimData) (samples : List Sample) (r : ReadingData) →
        IsLawful claim → AreSamplesOf claim samples →
        HoldsTrueTime claim samples r (hull_of samples claim r) }
{
    best_hulls_hold_the_error();
}

/// Whenever the clock shows a reading, true time lies between the two that a hull gives in which
/// the error lies.
pub fn errors_tell_true_time()
    ensures told { (course : Course) (r : ReadingData) (hull : Hull) →
        IsObservedIn course (pos r.begin) (pos r.end) → IsInHull course hull →
        IsThen course r hull }
{}

/// In every course of events that fits, it is then that the clock shows a reading.
pub fn moments_hold()
    ensures hold { (claim : ClaimData) (samples : List Sample) (r : ReadingData) →
        IsLawful claim → AreSamplesOf claim samples →
        HoldsWhen claim samples r (times.when_at samples claim r) }
{
    true_time_lies_between();
}

/// An order says so of any two true times that are when the two readings were: those of two clocks
/// in any pair of courses, or of one.
pub fn orders_are_so()
    ensures so { (first : When) (second : When) (n : ℕ) (n' : ℕ) (time : ℤ) (time' : ℤ) →
        IsDuring first n time → IsDuring second n' time' →
        IsSo (spec.order_of first second) n n' time time' }
{}

/// In every course of events that fits, in which one clock shows two readings, their order says so.
pub fn readings_tell_the_order()
    ensures holds { (claim : ClaimData) (samples : List Sample) (r : ReadingData)
        (r' : ReadingData) → IsLawful claim → AreSamplesOf claim samples →
        HoldsOrderOfOne claim samples r r' (order_of_one claim.drift_ppb r r'
        (spec.order_of (times.when_at samples claim r) (times.when_at samples claim r'))) }
{
    moments_hold();
    orders_are_so();
    widening_is_one_number();
}

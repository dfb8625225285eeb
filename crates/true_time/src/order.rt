//! Which of two readings was first.

ghost use Rattle.std.specs.Prelude.{◌≡◌, ◌<◌, ◌≤◌, ◌^◌, ◌-ℤ◌, IsTrue, unsigned_abs};
ghost use Rattle.true_time.specs.Common.{IsRate};
ghost use Rattle.true_time.specs.Order as spec;
ghost use Rattle.true_time.specs.Order.{IsShort, is_near};
ghost use Rattle.true_time.specs.TrueTime.{reading_over};

use crate::when::When;
use sample_interval::widen;

/// A billion, of which a rate of drift counts parts.
const BILLION: u128 = 1_000_000_000;

/// Which of two readings was first. Lengths are in ticks of 2^-32 s.
#[derive(Clone, Copy, Debug)]
pub enum Order {
    /// The first, by at least so much.
    FirstBefore(u128),
    /// The second, by at least so much.
    SecondBefore(u128),
    /// Either may have been.
    Open {
        /// The first was this much before the second at most.
        earlier: u128,
        /// It was this much after it at most.
        later: u128,
    },
    /// Either may have been, by any length.
    Unknown,
    /// No course of events fits in which the two were shown.
    Never,
}

/// Whether a tick is within 2^125 of zero.
fn is_near(tick: i128) -> bool
    ensures exact { result ≡ is_near tick }
    ensures near { IsTrue result → unsigned_abs tick ≤ 2 ^ 125 }
{
    tick.unsigned_abs() <= 1 << 125
}

/// How far apart two near ticks are.
fn apart(from: i128, to: i128) -> u128
    requires from { unsigned_abs from ≤ 2 ^ 125 }
    requires to { unsigned_abs to ≤ 2 ^ 125 }
    ensures exact { result ≡ unsigned_abs (to -ℤ from) }
    ensures at_most { result ≤ 2 ^ 127 }
{
    (to - from).unsigned_abs()
}

/// The order of readings that were between near ticks.
fn order_between(first: i128, last: i128, other_first: i128, other_last: i128) -> Order
    requires first { unsigned_abs first ≤ 2 ^ 125 }
    requires last { unsigned_abs last ≤ 2 ^ 125 }
    requires other_first { unsigned_abs other_first ≤ 2 ^ 125 }
    requires other_last { unsigned_abs other_last ≤ 2 ^ 125 }
    ensures exact { result ≡ spec.order_between first last other_first other_last }
    ensures short { IsShort result }
{
    if last < other_first {
        Order::FirstBefore(apart(last, other_first))
    } else if other_last < first {
        Order::SecondBefore(apart(other_last, first))
    } else {
        Order::Open {
            earlier: apart(first, other_last),
            later: apart(other_first, last),
        }
    }
}

/// The order of readings that were between these ticks.
fn order_of_any(first: i128, last: i128, other_first: i128, other_last: i128) -> Order
    ensures exact { result ≡
        spec.order_of (When.Between first last) (When.Between other_first other_last) }
    ensures short { IsShort result }
{
    if is_near(first) && is_near(last) && is_near(other_first) && is_near(other_last) {
        order_between(first, last, other_first, other_last)
    } else {
        Order::Unknown
    }
}

/// Which of two readings was first, by when they were.
pub fn order_of(first: When, second: When) -> Order
    ensures exact { result ≡ spec.order_of first second }
    ensures short { IsShort result }
{
    match (first, second) {
        (When::Never, _) | (_, When::Never) => Order::Never,
        (When::Whenever, _) | (_, When::Whenever) => Order::Unknown,
        (
            When::Between { earliest, latest },
            When::Between {
                earliest: other_earliest,
                latest: other_latest,
            },
        ) => order_of_any(earliest, latest, other_earliest, other_latest),
    }
}

/// True time that goes by at least while a clock of this drift, in parts of 10^9, advances by so
/// many ticks.
fn least_time(drift_ppb: u32, ticks: u64) -> u128
    ensures exact { result ≡ spec.least_time drift_ppb ticks }
    ensures at_most { result ≤ 2 ^ 127 }
{
    u128::from(ticks) * BILLION / (BILLION + u128::from(drift_ppb))
}

/// True time that goes by at most meanwhile, rounded up to a tick.
fn most_time(drift_ppb: u32, ticks: u64) -> u128
    requires { IsRate drift_ppb }
    ensures exact { result ≡ spec.most_time drift_ppb ticks }
    ensures at_most { result ≤ 2 ^ 127 }
{
    u128::from(ticks) + widen(drift_ppb, i128::from(ticks)).unsigned_abs()
}

/// The first was before the second by this at least, or by what an order says.
fn first_by(least: u128, order: Order) -> Order
    requires least { least ≤ 2 ^ 127 }
    requires short { IsShort order }
    ensures exact { result ≡ spec.first_by least order }
    ensures short { IsShort result }
{
    match order {
        Order::FirstBefore(ticks) => Order::FirstBefore(least.max(ticks)),
        _ => Order::FirstBefore(least),
    }
}

/// The second was before the first by this at least, or by what an order says.
fn second_by(least: u128, order: Order) -> Order
    requires least { least ≤ 2 ^ 127 }
    requires short { IsShort order }
    ensures exact { result ≡ spec.second_by least order }
    ensures short { IsShort result }
{
    match order {
        Order::SecondBefore(ticks) => Order::SecondBefore(least.max(ticks)),
        _ => Order::SecondBefore(least),
    }
}

/// Either may have been first, neither by more than this.
fn open_by(earlier: u128, later: u128, order: Order) -> Order
    requires earlier { earlier ≤ 2 ^ 127 }
    requires later { later ≤ 2 ^ 127 }
    requires short { IsShort order }
    ensures exact { result ≡ spec.open_by earlier later order }
    ensures short { IsShort result }
{
    match order {
        Order::Open {
            earlier: e,
            later: l,
        } => Order::Open {
            earlier: earlier.min(e),
            later: later.min(l),
        },
        Order::Unknown => Order::Open { earlier, later },
        _ => order,
    }
}

/// The order of two readings of one clock, of which an order is known, if each begins before the
/// other ends: they may touch, since ends are rounded outwards to ticks.
fn order_of_touching(drift_ppb: u32, first: (u64, u64), second: (u64, u64), order: Order) -> Order
    requires rate { IsRate drift_ppb }
    requires short { IsShort order }
    requires first { first.0 < second.1 }
    requires second { second.0 < first.1 }
    ensures exact { result ≡ spec.order_of_touching drift_ppb
        (reading_over first.0 first.1) (reading_over second.0 second.1) order }
    ensures short { IsShort result }
{
    if first.1 == second.0 + 1 {
        first_by(0, order)
    } else if second.1 == first.0 + 1 {
        second_by(0, order)
    } else {
        let earlier = most_time(drift_ppb, second.1.saturating_sub(first.0));
        let later = most_time(drift_ppb, first.1.saturating_sub(second.0));
        open_by(earlier, later, order)
    }
}

/// The order of two readings of one clock, of which an order is known: that of their ticks.
fn order_by_readings(drift_ppb: u32, first: (u64, u64), second: (u64, u64), order: Order) -> Order
    requires rate { IsRate drift_ppb }
    requires short { IsShort order }
    ensures exact { result ≡ spec.order_by_readings drift_ppb
        (reading_over first.0 first.1) (reading_over second.0 second.1) order }
    ensures short { IsShort result }
{
    if first.1 <= second.0 {
        first_by(least_time(drift_ppb, second.0 - first.1), order)
    } else if second.1 <= first.0 {
        second_by(least_time(drift_ppb, first.0 - second.1), order)
    } else {
        order_of_touching(drift_ppb, first, second, order)
    }
}

/// Which of two readings of one clock was first, if by when they were it is this one. A reading is
/// given by the first tick for which it stands and the last; the drift is in parts of 10^9.
///
/// The ticks are those of readings as they are written, rounded outwards: where one ends a tick
/// behind the other's first, the two only touch. So ticks that aren't have no such order.
pub fn order_of_one(drift_ppb: u32, first: (u64, u64), second: (u64, u64), order: Order) -> Order
    requires rate { IsRate drift_ppb }
    requires short { IsShort order }
    ensures exact { result ≡ spec.order_of_one drift_ppb
        (reading_over first.0 first.1) (reading_over second.0 second.1) order }
    ensures short { IsShort result }
{
    match order {
        Order::Never => Order::Never,
        _ => order_by_readings(drift_ppb, first, second, order),
    }
}

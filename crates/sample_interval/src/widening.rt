//! How far the error drifts.

ghost use Rattle.std.specs.Prelude.{◌≡◌, ◌<◌, ◌^◌, pos, ◌≤ℤ◌, unsigned_abs};
ghost use Rattle.std.specs.Int.{div_ceil};
ghost use Rattle.sample_interval.specs.Widening.{IsRate, IsWidening, widening};

use crate::laws::widening_is_one_number;

/// A rate counts parts in 10^9. This number has the width in which ticks are multiplied.
pub const PARTS: u128 = 1_000_000_000;

/// The most that the error changes, in ticks and rounded up, while the clock advances by `distance`
/// ticks: the least whole number W with `W * (10^9 - drift_ppb) >= drift_ppb * distance`.
///
/// The rate is up to 500,000,000 parts in 10^9 of true time, the distance from 0 to 2^80.
pub fn widen(drift_ppb: u32, distance: i128) -> i128
    requires rate { IsRate drift_ppb }
    requires from_zero { pos 0 ≤ℤ distance }
    requires in_range { distance ≤ℤ pos (2 ^ 80) }
    ensures exact { result ≡ pos (widening drift_ppb (unsigned_abs distance)) }
    ensures least { IsWidening drift_ppb (unsigned_abs distance) (unsigned_abs result) }
    ensures at_most_the_distance { result ≤ℤ distance }
{
    widening_is_one_number();
    let rate = u128::from(drift_ppb);
    rounded_up(rate * distance.unsigned_abs(), PARTS - rate) as i128
}

/// The quotient, rounded up. Two numbers of 64 bits, as they mostly are, are divided in half the
/// time.
fn rounded_up(dividend: u128, divisor: u128) -> u128
    requires { 0 < divisor }
    ensures { result ≡ div_ceil dividend divisor }
{
    match (u64::try_from(dividend), u64::try_from(divisor)) {
        (Ok(dividend), Ok(divisor)) => u128::from(dividend.div_ceil(divisor)),
        _ => dividend.div_ceil(divisor),
    }
}

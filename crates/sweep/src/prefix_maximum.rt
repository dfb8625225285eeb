//! The highest of the extremes that are early, for any stretch.

ghost use Rattle.std.specs.Prelude.{◌≡◌, ℕ, ◌<◌, ◌≤◌, ◌-◌, ◌+◌, ◌/◌, IsTrue, List, length, All, IfOk, Some, slice_get};
ghost use Rattle.sample_interval.specs.Widening.{IsRate, billion};
ghost use Rattle.sweep.specs.Extreme.{IsLawfulExtreme, seen};
ghost use Rattle.sweep.specs.PrefixMaximum.{AreMaximaOf, IsBracket, IsHeightUpto, IsEarlyLevel};
ghost use Rattle.sweep.specs.UnsignedStretch.{IsLawfulStretch};
ghost use Rattle.sweep.specs.declared.extreme.Extreme.{Extreme as TheExtreme};

use crate::extreme::Extreme;
use crate::places::trial;
use crate::queue::queue_of;
use crate::unsigned_stretch::UnsignedStretch;
use std::alloc::{AllocError, Global};

/// An extreme that is higher than all that come before it.
#[derive(Clone, Copy)]
pub struct PrefixMaximum {
    /// Twice the middle of its window.
    pub place: u128,
    /// Its height.
    pub height: u128,
}

/// The maxima of the extremes, with time running forwards or backwards.
pub fn maxima_of(
    alloc: Global,
    extremes: &[Extreme],
    backwards: bool,
    drift_ppb: u32,
) -> Result<Vec<PrefixMaximum>, AllocError>
    requires extremes { All IsLawfulExtreme extremes.now }
    requires few { length extremes.now ≤ 1_000_000 }
    requires rate { IsRate drift_ppb }
    ensures { IfOk result (λ maxima.
        AreMaximaOf drift_ppb (seen backwards extremes.now) maxima.items) }
{
    let queue = queue_of(alloc, extremes, backwards, drift_ppb)?;
    let mut maxima: Vec<PrefixMaximum> = Vec::new(alloc);
    for turn in 0..queue.len() {
        let arrival = queue[turn];
        if is_higher(arrival.height, maxima.as_slice()) {
            maxima.push(PrefixMaximum {
                place: arrival.at,
                height: arrival.height,
            })?;
        }
    }
    Ok(maxima)
}

/// Whether a height is above that of the last maximum.
fn is_higher(height: u128, maxima: &[PrefixMaximum]) -> bool
    ensures higher { IsTrue result → (maximum : PrefixMaximum) →
        slice_get maxima.now (length maxima.now - 1) ≡ Some maximum → maximum.height < height }
    ensures no_higher { ¬ IsTrue result → (maximum : PrefixMaximum)
        × (slice_get maxima.now (length maxima.now - 1) ≡ Some maximum)
        × (height ≤ maximum.height) }
{
    maxima.is_empty() || maxima[maxima.len() - 1].height < height
}

/// How many of the maxima come no later than a place, looked for from `near` on.
pub fn count_upto(maxima: &[PrefixMaximum], place: u128, near: usize) -> usize
    ensures { IsBracket maxima.now place result result }
{
    let mut low = 0;
    let mut high = maxima.len();
    while low < high {
        let middle = trial(low, high, near);
        if maxima[middle].place <= place {
            low = middle + 1;
        } else {
            high = middle;
        }
    }
    low
}

/// The greatest height of the extremes that come no later than a place, 0 if there is none.
fn height_upto(maxima: &[PrefixMaximum], place: u128, near: &mut usize) -> u128
    ensures { (ppb : ℕ) (extremes : List TheExtreme) → AreMaximaOf ppb extremes maxima.now →
        IsHeightUpto ppb extremes place result }
{
    let count = count_upto(maxima, place, *near);
    *near = count;
    if count == 0 {
        return 0;
    }
    maxima[count - 1].height
}

/// How far the highest early extreme stands above what it falls by a stretch's end, 0 if none does.
/// The level that it reaches there is this over 10^9 less the rate.
pub fn early_rise(
    maxima: &[PrefixMaximum],
    near: &mut usize,
    stretch: UnsignedStretch,
    drift_ppb: u32,
) -> u128
    requires stretch { IsLawfulStretch stretch }
    requires rate { IsRate drift_ppb }
    ensures { (extremes : List TheExtreme) → AreMaximaOf drift_ppb extremes maxima.now →
        IsEarlyLevel drift_ppb extremes stretch (result / (billion - drift_ppb)) }
{
    let rate = u128::from(drift_ppb);
    let height = height_upto(maxima, stretch.begin + stretch.end, near);
    height.saturating_sub(rate * stretch.end)
}

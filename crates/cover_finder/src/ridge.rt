//! The highest marks on a way.

ghost use Rattle.std.specs.Prelude.{◌≡◌, ℕ, ◌-◌, ◌<◌, ◌≤◌, ◌^◌, pos, ◌*ℤ◌, ◌<ℤ◌, ◌≤ℤ◌, IsTrue, List, length, IfOk, IfSome, Some, slice_get, unsigned_abs};
ghost use Rattle.cover_finder.specs.Common.{IsWithinRange};
ghost use Rattle.cover_finder.specs.Ridge.{AreWithOne, IsCountUpto, IsHighestIfAny, IsRidgeOf, NoneIsBehind, PeaksRise};
ghost use Rattle.cover_finder.specs.Ridge as spec;
ghost use Rattle.cover_finder.specs.declared.peak.Numbered.{Numbered as TheNumbered};
ghost use Rattle.cover_finder.specs.declared.peak.Peak.{Peak as ThePeak};

use crate::peak::{End, Numbered, Peak, Ridge};
use error_marks::Mark;
use std::alloc::{AllocError, Global};

/// A number of ticks, at a rate.
pub(crate) fn times(rate: u32, ticks: i128) -> i128
    requires { unsigned_abs ticks ≤ 2 ^ 73 }
    ensures exact { result ≡ pos rate *ℤ ticks }
    ensures in_range { unsigned_abs result ≤ 2 ^ 105 }
{
    i128::from(rate) * ticks
}

/// How high a mark stands, in parts of a tick.
fn height_of(drift: u32, rate: u32, mark: Mark) -> i128
    requires { IsWithinRange mark }
    ensures exact { result ≡ spec.height_of drift rate mark }
    ensures in_range { unsigned_abs result ≤ 2 ^ 106 }
{
    times(rate, mark.error) + times(drift, mark.place)
}

/// The error that a mark of this height is moved to as far as a place.
fn level_at(drift: u32, rate: u32, far: i128, height: i128) -> i128
    requires rate { 0 < rate }
    requires far { unsigned_abs far ≤ 2 ^ 73 }
    requires height { unsigned_abs height ≤ 2 ^ 106 }
    ensures exact { result ≡ spec.level_at drift rate far height }
    ensures in_range { unsigned_abs result ≤ 2 ^ 107 }
{
    (height - times(drift, far)).div_euclid(i128::from(rate))
}

/// Whether a height is above that of the last peak.
fn is_higher(height: i128, peaks: &[Peak]) -> bool
    ensures higher { IsTrue result → (last : ThePeak) →
        slice_get peaks.now (length peaks.now - 1) ≡ Some last → last.height <ℤ height }
    ensures no_higher { ¬ IsTrue result → (last : ThePeak)
        × (slice_get peaks.now (length peaks.now - 1) ≡ Some last) × (height ≤ℤ last.height) }
{
    peaks.is_empty() || peaks[peaks.len() - 1].height < height
}

impl Ridge {
    /// No mark yet.
    pub(crate) fn new(alloc: Global, drift: u32, rate: u32) -> Ridge
        requires { 0 < rate }
        ensures { (marks : List TheNumbered) (k : ℕ) → IsRidgeOf drift rate marks k k result }
    {
        Ridge {
            peaks: Vec::new(alloc),
            drift,
            rate,
        }
    }

    /// Takes note of a mark that doesn't come before those that were taken.
    pub(crate) fn take(&mut self, one: Numbered) -> Result<(), AllocError>
        requires { IsWithinRange one.mark }
        ensures { IfOk result (λ _. (drift rate : ℕ) (marks : List TheNumbered)
            (from to k from' to' : ℕ) → IsRidgeOf drift rate marks from to self.old →
            slice_get marks k ≡ Some one → AreWithOne from to k from' to' →
            NoneIsBehind marks from to one.mark.place →
            IsRidgeOf drift rate marks from' to' self.new) }
    {
        let height = height_of(self.drift, self.rate, one.mark);
        if is_higher(height, self.peaks.as_slice()) {
            self.peaks.push(Peak {
                place: one.mark.place,
                height,
                number: one.number,
            })?;
        }
        Ok(())
    }

    /// How many of the peaks come no later than a place.
    fn count_upto(&self, place: i128) -> usize
        ensures within { result ≤ length self.now.peaks.items }
        ensures count { PeaksRise self.now.peaks.items →
            IsCountUpto self.now.peaks.items place result }
    {
        self.peaks.partition_point(|peak| peak.place <= place)
    }

    /// The highest of the marks up to a place, where it is moved to as far as `far`.
    pub(crate) fn highest(&self, place: i128, far: i128) -> Option<End>
        requires { unsigned_abs far ≤ 2 ^ 73 }
        ensures exact { (drift rate : ℕ) (marks : List TheNumbered) →
            IsRidgeOf drift rate marks 0 (length marks) self.now →
            IsHighestIfAny drift rate marks place far result }
        ensures in_range { IfSome result (λ end. unsigned_abs end.error ≤ 2 ^ 107) }
    {
        let count = self.count_upto(place);
        if count == 0 {
            return None;
        }
        let peak = self.peaks[count - 1];
        Some(End {
            error: level_at(self.drift, self.rate, far, peak.height),
            number: peak.number,
        })
    }
}

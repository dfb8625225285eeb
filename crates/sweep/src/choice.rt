//! The best samples for one end.

ghost use Rattle.std.specs.Prelude.{◌≡◌, ◌≤◌, ◌<◌, length, All, IfOk, Some, slice_get};
ghost use Rattle.sample_interval.specs.Widening.{IsRate};
ghost use Rattle.sweep.specs.Extreme.{IsLawfulExtreme};
ghost use Rattle.sweep.specs.UnsignedStretch.{IsLawfulStretch, MiddlesRise};
ghost use Rattle.sweep.specs.Top.{AreLateTops, AreTopNumbers, higher_of};
ghost use Rattle.sweep.specs.declared.extreme.Extreme.{Extreme as TheExtreme};
ghost use Rattle.sweep.specs.declared.top.Top.{Top as TheTop};

use crate::extreme::Extreme;
use crate::passage::early_tops;
use crate::top::{Top, higher};
use crate::unsigned_stretch::{UnsignedStretch, mirrored_stretches};
use sample_interval::laws::widening_is_one_number;
use std::alloc::{AllocError, Global};

/// For each stretch the number of the extreme that is highest over it, the first among ties.
pub fn top_numbers(
    alloc: Global,
    extremes: &[Extreme],
    stretches: &[UnsignedStretch],
    drift_ppb: u32,
) -> Result<Vec<u32>, AllocError>
    requires extremes { All IsLawfulExtreme extremes.now }
    requires some { 0 < length extremes.now }
    requires few { length extremes.now ≤ 1_000_000 }
    requires stretches { All IsLawfulStretch stretches.now }
    requires in_order { MiddlesRise stretches.now }
    requires rate { IsRate drift_ppb }
    ensures { IfOk result (λ numbers.
        AreTopNumbers drift_ppb extremes.now stretches.now numbers.items) }
{
    // What the proof knows of widenings.
    widening_is_one_number();
    let early = early_tops(alloc, extremes, stretches, false, drift_ppb)?;
    let late = late_tops(alloc, extremes, stretches, drift_ppb)?;
    let mut numbers = Vec::with_capacity(alloc, stretches.len())?;
    for k in 0..stretches.len() {
        let number = number_of(extremes, early[k], late[stretches.len() - 1 - k]).unwrap();
        numbers.push(number)?;
    }
    Ok(numbers)
}

/// The number of the extreme that has the higher of two tops.
fn number_of(extremes: &[Extreme], one: Option<Top>, other: Option<Top>) -> Option<u32>
    ensures { (top : TheTop) (extreme : TheExtreme) → higher_of one other ≡ Some top →
        slice_get extremes.now top.index ≡ Some extreme → result ≡ Some extreme.number }
{
    let top = higher(one, other)?;
    Some(extremes.get(top.index)?.number)
}

/// The top of the extremes that are early with time running backwards: over the last stretch, then
/// over the one before it, and so on.
fn late_tops(
    alloc: Global,
    extremes: &[Extreme],
    stretches: &[UnsignedStretch],
    drift_ppb: u32,
) -> Result<Vec<Option<Top>>, AllocError>
    requires extremes { All IsLawfulExtreme extremes.now }
    requires few { length extremes.now ≤ 1_000_000 }
    requires stretches { All IsLawfulStretch stretches.now }
    requires in_order { MiddlesRise stretches.now }
    requires rate { IsRate drift_ppb }
    ensures { IfOk result (λ tops. AreLateTops drift_ppb extremes.now stretches.now tops.items) }
{
    let stretches = mirrored_stretches(alloc, stretches)?;
    early_tops(alloc, extremes, stretches.as_slice(), true, drift_ppb)
}

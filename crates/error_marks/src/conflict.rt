//! The first low mark and high mark that no course keeps.

ghost use Rattle.std.specs.Prelude.{All, IfOk, MatchOption, IsPermutation};
ghost use Rattle.sample_interval.specs.Widening.{IsRate};
ghost use Rattle.error_marks.specs.Compatible.{AllCompatible};
ghost use Rattle.error_marks.specs.Conflict.{IsFirstAgainst, AreInFront, IsFirstConflict};
ghost use Rattle.error_marks.specs.Direction.{IsInOrder};
ghost use Rattle.error_marks.specs.Mark.{AreCompatible};
ghost use Rattle.error_marks.specs.Range.{IsWithinRange};

use crate::compatible::{all_compatible_in_order, sort_marks};
use crate::mark::Mark;
use crate::pair::are_compatible;
use std::alloc::{AllocError, Global};

/// The number of the first high mark that isn't compatible with a low mark, if there is one.
///
/// The rate is up to 500,000,000 parts in 10^9 of true time, and each number of ticks lies from
/// -2^73 to 2^73.
pub fn first_against(drift_ppb: u32, low: Mark, highs: &[Mark]) -> Option<usize>
    requires rate { IsRate drift_ppb }
    requires low { IsWithinRange low }
    requires highs { All IsWithinRange highs.now }
    ensures { MatchOption result (All (λ high. AreCompatible drift_ppb low high) highs.now)
        (λ j. IsFirstAgainst drift_ppb low highs.now j) }
{
    for (j, high) in highs.iter().enumerate() {
        if !are_compatible(drift_ppb, low, *high) {
            return Some(j);
        }
    }
    None
}

/// A copy of marks in the order of their places.
fn sorted_copy(alloc: Global, marks: &[Mark]) -> Result<Vec<Mark>, AllocError>
    requires { All IsWithinRange marks.now }
    ensures permutation { IfOk result (λ sorted. IsPermutation marks.now sorted.items) }
    ensures range { IfOk result (λ sorted. All IsWithinRange sorted.items) }
    ensures order { IfOk result (λ sorted. IsInOrder sorted.items) }
{
    let mut sorted = Vec::from_slice(alloc, marks)?;
    sort_marks(&mut sorted);
    Ok(sorted)
}

/// How many low marks in front are compatible with each high mark.
fn marks_in_front(
    alloc: Global,
    drift_ppb: u32,
    lows: &[Mark],
    highs: &[Mark],
) -> Result<usize, AllocError>
    requires rate { IsRate drift_ppb }
    requires lows { All IsWithinRange lows.now }
    requires highs { All IsWithinRange highs.now }
    ensures { IfOk result (λ n. AreInFront drift_ppb lows.now highs.now n) }
{
    let sorted = sorted_copy(alloc, highs)?;
    let count = front_by_halving(alloc, drift_ppb, lows, &sorted)?;
    Ok(count)
}

/// The same by halving, with the high marks in the order of their places. Low marks that were found
/// to be compatible aren't looked at again.
fn front_by_halving(
    alloc: Global,
    drift_ppb: u32,
    lows: &[Mark],
    highs: &[Mark],
) -> Result<usize, AllocError>
    requires rate { IsRate drift_ppb }
    requires lows { All IsWithinRange lows.now }
    requires highs { All IsWithinRange highs.now }
    requires order { IsInOrder highs.now }
    ensures { IfOk result (λ n. AreInFront drift_ppb lows.now highs.now n) }
{
    let mut least = 0;
    let mut most = lows.len();
    while least < most {
        let middle = most - (most - least) / 2;
        let part = sorted_copy(alloc, &lows[least..middle])?;
        if all_compatible_in_order(drift_ppb, &part, highs) {
            least = middle;
        } else {
            most = middle - 1;
        }
    }
    Ok(least)
}

/// The numbers of the first low mark and high mark that aren't compatible, by the low mark's number
/// and then by the high mark's. None if all are compatible.
///
/// It takes memory for a copy of the high marks and of half the low ones. Each list is sorted once,
/// the low marks part by part, and the high marks are gone through twice for each halving: some
/// forty times at most. The rate is up to 500,000,000 parts in 10^9 of true time, and each number
/// of ticks lies from -2^73 to 2^73.
pub fn first_conflict(
    alloc: Global,
    drift_ppb: u32,
    lows: &[Mark],
    highs: &[Mark],
) -> Result<Option<(usize, usize)>, AllocError>
    requires rate { IsRate drift_ppb }
    requires lows { All IsWithinRange lows.now }
    requires highs { All IsWithinRange highs.now }
    ensures { IfOk result (λ found. MatchOption found (AllCompatible drift_ppb lows.now highs.now)
        (λ pair. IsFirstConflict drift_ppb lows.now highs.now pair.0 pair.1)) }
{
    let number = marks_in_front(alloc, drift_ppb, lows, highs)?;
    if number == lows.len() {
        return Ok(None);
    }
    match first_against(drift_ppb, lows[number], highs) {
        Some(against) => Ok(Some((number, against))),
        None => unreachable!(),
    }
}

//! One end of a server's interval over any stretch.

ghost use Rattle.std.specs.Prelude.{◌≡◌, ℕ, ◌<◌, ◌≤◌, ◌^◌, List, length, map, All, IfOk, IfSome, MatchOption, unsigned_abs};
ghost use Rattle.cover_finder.specs.Common.{IsPiece, IsWithinRange};
ghost use Rattle.cover_finder.specs.Ridge.{IsRidgeOf};
ghost use Rattle.cover_finder.specs.Side.{AreInOrder, IsHighestOver, IsSideOf, higher_of};
ghost use Rattle.cover_finder.specs.Side as spec;
ghost use Rattle.cover_finder.specs.declared.peak.Numbered.{Numbered as TheNumbered};

use crate::peak::{End, Numbered, Ridge};
use crate::ridge::times;
use error_marks::Mark;
use span_cover::Stretch;
use std::alloc::{AllocError, Global};

/// Marks of one kind of a server, laid out so that the one whose end over a stretch is highest is
/// found by two searches. High marks come with their errors turned.
#[derive(Drop)]
pub(crate) struct Side {
    /// By the end of a stretch, in the order of places.
    early: Ridge,
    /// By its begin, in the opposite order and with places turned.
    late: Ridge,
}

/// A mark with its place turned.
fn turned(one: Numbered) -> Numbered
    requires { IsWithinRange one.mark }
    ensures exact { result ≡ spec.turned one }
    ensures range { IsWithinRange result.mark }
{
    let Numbered { mark, number } = one;
    Numbered {
        mark: Mark {
            place: -mark.place,
            error: mark.error,
        },
        number,
    }
}

/// The ridge of marks that are sorted by their places.
fn early_ridge(
    alloc: Global,
    marks: &[Numbered],
    drift: u32,
    rate: u32,
) -> Result<Ridge, AllocError>
    requires rate { 0 < rate }
    requires range { All (λ one. IsWithinRange one.mark) marks.now }
    requires order { AreInOrder marks.now }
    ensures { IfOk result (IsRidgeOf drift rate marks.now 0 (length marks.now)) }
{
    let mut ridge = Ridge::new(alloc, drift, rate);
    for one in marks {
        ridge.take(*one)?;
    }
    Ok(ridge)
}

/// The ridge of the same with their places turned, from the last to the first.
fn late_ridge(alloc: Global, marks: &[Numbered], drift: u32, rate: u32) -> Result<Ridge, AllocError>
    requires rate { 0 < rate }
    requires range { All (λ one. IsWithinRange one.mark) marks.now }
    requires order { AreInOrder marks.now }
    ensures { IfOk result
        (IsRidgeOf drift rate (map spec.turned marks.now) 0 (length marks.now)) }
{
    let mut ridge = Ridge::new(alloc, drift, rate);
    for number in (0..marks.len()).rev() {
        ridge.take(turned(marks[number]))?;
    }
    Ok(ridge)
}

/// The higher of two ends, the first if neither is.
fn higher(early: Option<End>, late: Option<End>) -> Option<End>
    ensures { result ≡ higher_of early late }
{
    match (early, late) {
        (None, _) => late,
        (Some(_), None) => early,
        (Some(a), Some(b)) => { if a.error < b.error { late } else { early } }
    }
}

/// The ends of a stretch, each weighed by a rate.
fn weighed(onwards: u32, back: u32, stretch: Stretch) -> i128
    requires { IsPiece stretch.begin stretch.end }
    ensures exact { result ≡ spec.weighed onwards back stretch }
    ensures in_range { unsigned_abs result ≤ 2 ^ 106 }
{
    times(back, stretch.end) + times(onwards, stretch.begin)
}

/// The last place up to which the end of a stretch is the farther one from a mark.
fn middle_of(onwards: u32, back: u32, stretch: Stretch) -> i128
    requires stretch { IsPiece stretch.begin stretch.end }
    requires rate { 0 < onwards }
    ensures exact { result ≡ spec.middle_of onwards back stretch }
    ensures in_range { unsigned_abs result ≤ 2 ^ 107 }
{
    let parts = u64::from(back) + u64::from(onwards);
    weighed(onwards, back, stretch).div_euclid(i128::from(parts))
}

impl Side {
    /// The marks, which are sorted by their places. `onwards` and `back` are the rates by which an
    /// end is moved: towards the end of a stretch and towards its begin.
    pub(crate) fn new(
        alloc: Global,
        marks: &[Numbered],
        drift: u32,
        onwards: u32,
        back: u32,
    ) -> Result<Side, AllocError>
        requires onwards { 0 < onwards }
        requires back { 0 < back }
        requires range { All (λ one. IsWithinRange one.mark) marks.now }
        requires order { AreInOrder marks.now }
        ensures { IfOk result (IsSideOf drift onwards back marks.now) }
    {
        let early = early_ridge(alloc, marks, drift, onwards)?;
        let late = late_ridge(alloc, marks, drift, back)?;
        Ok(Side { early, late })
    }

    /// The highest end over a stretch, if there is a mark.
    pub(crate) fn highest(&self, stretch: Stretch) -> Option<End>
        requires { IsPiece stretch.begin stretch.end }
        ensures exact { (drift onwards back : ℕ) (marks : List TheNumbered) →
            IsSideOf drift onwards back marks self.now →
            MatchOption result (length marks ≡ 0)
            (IsHighestOver drift onwards back marks stretch) }
        ensures in_range { IfSome result (λ end. unsigned_abs end.error ≤ 2 ^ 107) }
    {
        let middle = middle_of(self.early.rate, self.late.rate, stretch);
        let early = self.early.highest(middle, stretch.end);
        let late = self.late.highest(-(middle + 1), -stretch.begin);
        higher(early, late)
    }
}

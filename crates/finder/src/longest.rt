//! The longest piece from a reading.

ghost use Rattle.std.specs.Prelude.{◌≡◌, ◌<◌, ◌≤◌, pos, ◌+ℤ◌, ◌≤ℤ◌, true, List, length, All, IfOk, IsTrue, MatchResult};
ghost use Rattle.finder.specs.Common.{int_min, data_of, most_exchanges, Sample, AreSamplesOf};
ghost use Rattle.finder.specs.Entry.{best_entries, best_hull, parts_named};
ghost use Rattle.finder.specs.Fewest.{FailsAt, IsLongest, shows, stretch_over};
ghost use Rattle.finder.specs.Reach.{AreTablesFor, IsTabled, OfTables};

use crate::likely::likely_length;
use crate::trial::trial;
use arrayvec::ArrayVec;
use claim_file::Claim;
use intersection::kinds::Hull;
use sample_interval::SampleSource;
use span_cover::{Part, is_inside, piece_hull};
use std::alloc::{AllocError, Global};
use sweep::{BestTable, Places, parts_near, tables_of};

/// The tables of the servers that have a sample. Once they are made, a hull is found by a search.
pub(crate) fn tables_for<S: SampleSource>(
    alloc: Global,
    samples: S,
    claim: &Claim,
) -> Result<Vec<BestTable>, AllocError>
    requires samples { AreSamplesOf (data_of claim.now) (S.samples samples) }
    requires few { length (S.samples samples) ≤ most_exchanges }
    ensures { IfOk result (λ tables.
        AreTablesFor (S.samples samples) (data_of claim.now) tables.items) }
{
    let count = claim.servers.len() as u8;
    let tables = tables_of(alloc, samples, count, claim.drift_ppb)?;
    Ok(tables)
}

/// What the best entries of a stretch say, by the tables of the servers. The places are hints: what
/// lies near the last stretch that was asked for with them is found in the fewer steps.
#[inline(always)]
pub(crate) fn parts_over(
    tables: &[BestTable],
    places: &mut Places,
    claim: &Claim,
    begin: u64,
    end: u64,
) -> ArrayVec<Part, 32>
    requires tables { IsTabled (data_of claim.now) tables.now }
    requires in_order { begin ≤ end }
    ensures exact { OfTables (data_of claim.now) tables.now (λ samples. result.items ≡
        parts_named samples (data_of claim.now) (stretch_over (pos begin) (pos end))
        (best_entries samples (data_of claim.now) (stretch_over (pos begin) (pos end)))) }
    ensures listed { All (λ part. part.server < length claim.now.groups.items) result.items }
{
    let (begin, end) = (i128::from(begin), i128::from(end));
    parts_near(tables, places, begin, end, claim.drift_ppb)
}

/// The hull of the best entries of a stretch.
pub(crate) fn hull_over(
    tables: &[BestTable],
    places: &mut Places,
    claim: &Claim,
    begin: u64,
    end: u64,
) -> Hull
    requires tables { IsTabled (data_of claim.now) tables.now }
    requires in_order { begin ≤ end }
    ensures { (samples : List Sample) → AreTablesFor samples (data_of claim.now) tables.now →
        result ≡ best_hull samples (data_of claim.now) (stretch_over (pos begin) (pos end)) }
{
    let parts = parts_over(tables, places, claim, begin, end);
    piece_hull(parts.as_slice(), claim.groups.as_slice(), claim.false_max)
}

/// Whether the hull over a stretch shows that the error is within the bound there.
fn is_shown(tables: &[BestTable], places: &mut Places, claim: &Claim, begin: u64, end: u64) -> bool
    requires tables { IsTabled (data_of claim.now) tables.now }
    requires in_order { begin ≤ end }
    ensures { (samples : List Sample) → AreTablesFor samples (data_of claim.now) tables.now →
        result ≡ shows samples (data_of claim.now) (pos begin) (pos end) }
{
    let hull = hull_over(tables, places, claim, begin, end);
    is_inside(claim.bound, hull)
}

/// The next tick, but no later than the last one.
pub(crate) fn tick_after(begin: u64, last: u64) -> u64
    requires { begin ≤ last }
    ensures { pos result ≡ int_min (pos begin +ℤ pos 1) (pos last) }
{
    if begin < last { begin + 1 } else { last }
}

/// How the search for the ends of one piece after another goes on.
#[derive(Clone, Copy)]
pub(crate) struct Pace {
    places: Places,
    /// How many ticks the last piece has.
    length: u64,
    /// How many pieces before it are as long.
    same: u32,
    /// How long a piece was that ended before the servers' ends left the bound, if the last ones
    /// weren't longer.
    shortened: u64,
}

impl Pace {
    /// No piece is found yet.
    pub(crate) fn new() -> Pace {
        Pace {
            places: Places::default(),
            length: 0,
            same: 0,
            shortened: u64::MAX,
        }
    }

    /// Takes note of a piece of so many ticks, where so many were likely.
    fn see(&mut self, length: u64, likely: u64) {
        if length < likely {
            self.shortened = length;
        } else if self.shortened < length {
            self.shortened = u64::MAX;
        }
        self.same = if length == self.length {
            self.same.saturating_add(1)
        } else {
            0
        };
        self.length = length;
    }

    /// How long the last piece was, if so many before it were as long.
    pub(crate) fn steady(self, before: u32) -> Option<u64> {
        (before <= self.same).then_some(self.length)
    }
}

/// Where the longest piece from `begin` ends; or, if the piece of one tick from there doesn't show
/// that the error is within the bound, the hull over it. The end is looked for where the servers'
/// ends likely leave the bound, or sooner if pieces have been shorter; and each look-up goes on
/// from where the last one ended.
pub(crate) fn longest_piece(
    tables: &[BestTable],
    pace: &mut Pace,
    claim: &Claim,
    begin: u64,
) -> Result<u64, Hull>
    requires tables { IsTabled (data_of claim.now) tables.now }
    requires in_span { pos begin ≤ℤ claim.now.last }
    ensures { (samples : List Sample) → AreTablesFor samples (data_of claim.now) tables.now →
        MatchResult result (λ end. IsLongest samples (data_of claim.now) (pos begin) (pos end))
        (FailsAt samples (data_of claim.now) (pos begin)) }
{
    let next = tick_after(begin, claim.last as u64);
    let hull = hull_over(tables, &mut pace.places, claim, begin, next);
    if !is_inside(claim.bound, hull) {
        return Err(hull);
    }
    let likely = likely_length(tables, &mut pace.places, claim, begin);
    let length = likely.min(pace.shortened);
    let near = begin.saturating_add(length).min(claim.last as u64);
    let end = longest_end(tables, &mut pace.places, claim, begin, next, near);
    pace.see(end.saturating_sub(begin), likely);
    Ok(end)
}

/// Whether the longest piece from `begin` has so many ticks, and ends before the span.
pub(crate) fn is_as_long(
    tables: &[BestTable],
    pace: &mut Pace,
    claim: &Claim,
    begin: u64,
    length: u64,
) -> bool
    requires tables { IsTabled (data_of claim.now) tables.now }
    ensures { IsTrue result → pos begin ≤ℤ claim.now.last }
{
    let end = begin.saturating_add(length);
    if claim.last as u64 <= end {
        return false;
    }
    is_shown(tables, &mut pace.places, claim, begin, end)
        && !is_shown(tables, &mut pace.places, claim, begin, end + 1)
}

/// Where the longest piece from `begin` ends, if the piece from there to `next`, the next tick,
/// shows that the error is within the bound. What a piece shows each shorter one shows too, so that
/// the end is found by halving; it is looked for first at `near`, and then in steps from there.
#[tactic(auto, using(crate::proofs::LongestPiece::halving))]
fn longest_end(
    tables: &[BestTable],
    places: &mut Places,
    claim: &Claim,
    begin: u64,
    next: u64,
    near: u64,
) -> u64
    requires tables { IsTabled (data_of claim.now) tables.now }
    requires in_span { pos begin ≤ℤ claim.now.last }
    requires next { pos next ≡ int_min (pos begin +ℤ pos 1) claim.now.last }
    requires shown { (samples : List Sample) → AreTablesFor samples (data_of claim.now) tables.now →
        shows samples (data_of claim.now) (pos begin) (pos next) ≡ true }
    ensures { (samples : List Sample) → AreTablesFor samples (data_of claim.now) tables.now →
        IsLongest samples (data_of claim.now) (pos begin) (pos result) }
{
    let mut low = next;
    let mut high = claim.last as u64;
    while low < high {
        let middle = trial(low, high, near) + 1;
        if is_shown(tables, places, claim, begin, middle) {
            low = middle;
        } else {
            high = middle - 1;
        }
    }
    low
}

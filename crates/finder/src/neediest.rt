//! The tick that needs the widest bound where some groups have no say.
//!
//! If the groups of a cover are left out, what is left has no conflict: no hull is empty, and its
//! ends change no faster than the clock may drift. So what two ticks need says where those between
//! them likely need most: where a server's samples before it and those after it say as little. How
//! much they need at most says the hull over all of them.

ghost use Rattle.std.specs.Prelude.{◌≡◌, ◌⊎◌, ◌<◌, ◌≤◌, ◌-◌, ℤ, pos, ◌≤ℤ◌, false, length, filter, All, IfOk, IfSome, IsSomeAnd, IsTrue, MatchOption};
ghost use Rattle.finder.specs.Common.{option_map, data_of as claim_data, max_bound_ns, holds, IsRate};
ghost use Rattle.finder.specs.Fewest.{stretch_over};
ghost use Rattle.finder.specs.Neediest as spec;
ghost use Rattle.finder.specs.Neediest.{AreHalves, IsBoundless, IsGap, IsNeediest, IsWithin, NeedsAtMost, has_say, need_of, tick_without};
ghost use Rattle.finder.specs.Reach.{IsTabled, OfTables};

use crate::least::{nanoseconds_of, reach_of};
use crate::leeway::group_of;
use crate::longest::{parts_over, tick_after};
use arrayvec::ArrayVec;
use claim_file::{Claim, MAX_BOUND_NS};
use feasibility::Groups;
use intersection::kinds::Hull;
use sample_interval::PARTS;
use span_cover::{Part, piece_hull};
use std::alloc::{AllocError, Global};
use sweep::{BestTable, Places};

/// What a tick needs, or the span's last moment.
#[derive(Clone, Copy)]
pub(crate) struct TickNeed {
    /// Where it begins, in Unix ticks.
    pub(crate) begin: u64,
    /// How many ticks of 2^-32 s the bound has to have.
    pub(crate) ticks: u128,
}

impl TickNeed {
    /// The one of two that needs more, and of two that need as much the first.
    fn needier(self, other: TickNeed) -> TickNeed
        ensures one { (result ≡ self) ⊎ (result ≡ other) }
        ensures this { self.ticks ≤ result.ticks }
        ensures other { other.ticks ≤ result.ticks }
    {
        let is_later = other.begin < self.begin;
        if self.ticks < other.ticks || (self.ticks == other.ticks && is_later) {
            other
        } else {
            self
        }
    }
}

/// The tick that needs most of those that were seen.
#[derive(Clone, Copy)]
pub(crate) struct Neediest {
    pub(crate) tick: TickNeed,
    /// The splits sufficed: no tick of the span needs more.
    pub(crate) is_whole: bool,
}

/// The bound in nanoseconds that the neediest tick needs, the greatest of those with one of the
/// covers left out; 0 if no tick needs one.
pub(crate) fn likely_bound(
    alloc: Global,
    tables: &[BestTable],
    claim: &Claim,
    covers: &[Groups],
    samples: usize,
) -> Result<u64, AllocError>
    requires tables { IsTabled (claim_data claim.now) tables.now }
    ensures { IfOk result (λ bound_ns. bound_ns ≤ max_bound_ns) }
{
    let splits = splits_for(samples, covers.len());
    let mut most = 0;
    for cover in covers {
        if let Some(found) = neediest_tick(alloc, tables, claim, *cover, splits)? {
            most = most.max(found.tick.ticks);
        }
    }
    Ok(in_nanoseconds(most))
}

/// A number of ticks as a bound in nanoseconds, or the greatest that a claim may have.
pub(crate) fn in_nanoseconds(ticks: u128) -> u64
    ensures { result ≤ max_bound_ns }
{
    if 1_000_000 << 32 <= ticks {
        return MAX_BOUND_NS;
    }
    nanoseconds_of(ticks).min(u128::from(MAX_BOUND_NS)) as u64
}

/// How many gaps are looked into for each of some covers: all in all 4 for each sample and 100,000
/// besides.
pub(crate) fn splits_for(samples: usize, covers: usize) -> usize {
    samples.saturating_mul(4).saturating_add(100_000) / covers.max(1)
}

/// The most that a tick needs with any of some covers left out, if it's known of all but the last
/// one, and this was found with that.
pub(crate) fn most_with(most: Option<u128>, found: Option<Neediest>) -> Option<u128>
    ensures { IfSome result (λ all. IsSomeAnd most (λ before. before ≤ all)
        × IsSomeAnd found (λ last. IsTrue last.is_whole × (last.tick.ticks ≤ all))) }
{
    match (most, found) {
        (Some(before), Some(last)) if last.is_whole => Some(before.max(last.tick.ticks)),
        _ => None,
    }
}

/// What lies between two ticks of the span of which it's known what they need.
#[derive(Clone, Copy)]
struct Gap {
    first: TickNeed,
    last: TickNeed,
}

impl Gap {
    /// How many ticks it has.
    fn reach(self) -> u64
        requires in_order { self.first.begin ≤ self.last.begin }
        ensures { result ≡ self.last.begin - self.first.begin }
    {
        self.last.begin - self.first.begin
    }

    /// By how much the need may change from its begin to its end, if it changes no faster than the
    /// clock drifts.
    fn change(self, drift_ppb: u32) -> u128
        requires in_order { self.first.begin ≤ self.last.begin }
        requires rate { IsRate drift_ppb }
    {
        let rate = u128::from(drift_ppb);
        (rate * u128::from(self.reach())).div_ceil(PARTS - rate)
    }

    /// The most that a tick in it likely needs.
    fn likely_most(self, drift_ppb: u32) -> u128
        requires in_order { self.first.begin ≤ self.last.begin }
        requires rate { IsRate drift_ppb }
    {
        let ends = self.first.ticks.saturating_add(self.last.ticks);
        ends.saturating_add(self.change(drift_ppb)).div_ceil(2)
    }

    /// Where the tick likely lies that needs the most, but no closer to an end than an eighth of
    /// the gap. If rounding tells as much as the drift, the middle.
    fn middle(self, drift_ppb: u32) -> u64
        requires in_order { self.first.begin ≤ self.last.begin }
        requires rate { IsRate drift_ppb }
        ensures from_first { self.first.begin ≤ result }
        ensures to_last { result ≤ self.last.begin }
    {
        let reach = self.reach();
        let change = self.change(drift_ppb);
        let rise = change
            .saturating_add(self.last.ticks)
            .saturating_sub(self.first.ticks);
        let part = u128::from(reach).saturating_mul(rise);
        let half = match part.checked_div(change.saturating_mul(2)) {
            Some(half) if 4 < change => u64::try_from(half).unwrap_or(reach),
            _ => reach / 2,
        };
        let margin = reach / 8;
        self.first.begin + half.max(margin).min(reach - margin)
    }

    /// What lies before and after a tick of it. The one that likely needs more comes last.
    fn halves(self, tick: TickNeed, drift_ppb: u32) -> (Gap, Gap)
        requires from_first { self.first.begin ≤ tick.begin }
        requires to_last { tick.begin ≤ self.last.begin }
        requires rate { IsRate drift_ppb }
        ensures { AreHalves self tick result.0 result.1 }
    {
        let before = Gap { last: tick, ..self };
        let after = Gap {
            first: tick,
            ..self
        };
        if before.likely_most(drift_ppb) < after.likely_most(drift_ppb) {
            (before, after)
        } else {
            (after, before)
        }
    }
}

/// The tick that needs most where the groups of a cover have no say, the first of those that need
/// as much; or the one that needs most of those that were seen, once as many gaps were looked into
/// as may be. If no bound is enough for some tick, none.
///
/// The search begins with the gap between the span's ends. A tick splits a gap where the need is
/// likely greatest, if it rises and falls as fast as the clock may drift; but a gap is left behind
/// only if the hull over all of it needs no more than the best tick, since no tick within it needs
/// more than that. Of the two gaps that a tick splits the one that likely needs more comes first,
/// so that what lies close in time is mostly looked up one after the other.
pub(crate) fn neediest_tick(
    alloc: Global,
    tables: &[BestTable],
    claim: &Claim,
    cover: Groups,
    splits: usize,
) -> Result<Option<Neediest>, AllocError>
    requires tables { IsTabled (claim_data claim.now) tables.now }
    ensures { IfOk result (λ found. OfTables (claim_data claim.now) tables.now (λ samples.
        MatchOption found (IsBoundless samples (claim_data claim.now) (holds cover))
        (IsNeediest samples (claim_data claim.now) (holds cover)))) }
{
    let mut places = Places::default();
    let Some(first) = tick_need(tables, &mut places, claim, cover, claim.first as u64) else {
        return Ok(None);
    };
    let Some(last) = tick_need(tables, &mut places, claim, cover, claim.last as u64) else {
        return Ok(None);
    };
    let mut best = first.needier(last);
    let mut left = Vec::new(alloc);
    left.push(Gap { first, last })?;
    for _ in 0..splits {
        let Some(gap) = left.pop() else {
            return Ok(Some(Neediest {
                tick: best,
                is_whole: true,
            }));
        };
        if may_need_more(tables, &mut places, claim, cover, gap, best) {
            let middle = gap.middle(claim.drift_ppb);
            let Some(tick) = tick_need(tables, &mut places, claim, cover, middle) else {
                return Ok(None);
            };
            best = best.needier(tick);
            let (later, next) = gap.halves(tick, claim.drift_ppb);
            left.push(later)?;
            left.push(next)?;
        }
    }
    Ok(Some(Neediest {
        tick: best,
        is_whole: left.is_empty(),
    }))
}

/// Whether a tick in a gap may need more than the best one, or as much and come before it. If it
/// likely does, the hull over the gap isn't asked.
fn may_need_more(
    tables: &[BestTable],
    places: &mut Places,
    claim: &Claim,
    cover: Groups,
    gap: Gap,
    best: TickNeed,
) -> bool
    requires tables { IsTabled (claim_data claim.now) tables.now }
    requires gap { IsGap (claim_data claim.now) gap }
    ensures { (result ≡ false) → OfTables (claim_data claim.now) tables.now (λ samples.
        (p : ℤ) → IsWithin gap p → NeedsAtMost best.ticks
        (tick_without samples (claim_data claim.now) (holds cover) p)) }
{
    if gap.reach() <= 1 {
        return false;
    }
    if best.ticks.saturating_add(1) < gap.likely_most(claim.drift_ppb) {
        return true;
    }
    let begin = gap.first.begin;
    match need_over(tables, places, claim, cover, begin, gap.last.begin) {
        Some(all) => best.ticks < all || (best.ticks == all && begin < best.begin),
        None => true,
    }
}

/// What the tick from `begin` needs, or the moment if the span ends there; none if no bound is
/// enough.
fn tick_need(
    tables: &[BestTable],
    places: &mut Places,
    claim: &Claim,
    cover: Groups,
    begin: u64,
) -> Option<TickNeed>
    requires tables { IsTabled (claim_data claim.now) tables.now }
    requires in_span { pos begin ≤ℤ claim.now.last }
    ensures begin { IfSome result (λ tick. tick.begin ≡ begin) }
    ensures need { OfTables (claim_data claim.now) tables.now (λ samples. need_of
        (tick_without samples (claim_data claim.now) (holds cover) (pos begin))
        ≡ option_map (λ tick. tick.ticks) result) }
{
    let end = tick_after(begin, claim.last as u64);
    let ticks = need_over(tables, places, claim, cover, begin, end)?;
    Some(TickNeed { begin, ticks })
}

/// How many ticks the bound has to have for a stretch; none if no number is enough.
fn need_over(
    tables: &[BestTable],
    places: &mut Places,
    claim: &Claim,
    cover: Groups,
    begin: u64,
    end: u64,
) -> Option<u128>
    requires tables { IsTabled (claim_data claim.now) tables.now }
    requires in_order { begin ≤ end }
    ensures { OfTables (claim_data claim.now) tables.now (λ samples. result ≡ need_of
        (spec.hull_without samples (claim_data claim.now) (holds cover)
        (stretch_over (pos begin) (pos end)))) }
{
    match hull_without(tables, places, claim, cover, begin, end) {
        Hull::Bounded { lo, hi } => Some(reach_of(lo, hi)),
        Hull::Empty => Some(0),
        Hull::Unbounded => None,
    }
}

/// The hull over a stretch of what the groups outside a cover say, if as many of them may be false
/// as are left.
fn hull_without(
    tables: &[BestTable],
    places: &mut Places,
    claim: &Claim,
    cover: Groups,
    begin: u64,
    end: u64,
) -> Hull
    requires tables { IsTabled (claim_data claim.now) tables.now }
    requires in_order { begin ≤ end }
    ensures exact { OfTables (claim_data claim.now) tables.now (λ samples. result ≡
        spec.hull_without samples (claim_data claim.now) (holds cover)
        (stretch_over (pos begin) (pos end))) }
{
    let all = parts_over(tables, places, claim, begin, end);
    let parts = parts_without(all.as_slice(), claim, cover);
    let false_max = claim.false_max.saturating_sub(cover.count(32));
    piece_hull(parts.as_slice(), claim.groups.as_slice(), false_max)
}

/// The parts of the groups outside a cover.
fn parts_without(all: &[Part], claim: &Claim, cover: Groups) -> ArrayVec<Part, 32>
    requires few { length all.now ≤ 32 }
    requires listed { All (λ part. part.server < length claim.now.groups.items) all.now }
    ensures exact { result.items ≡
        filter (has_say claim.now.groups.items (holds cover)) all.now }
{
    let mut parts = ArrayVec::new();
    for part in all {
        if !cover.contains(group_of(claim, part.server)) {
            parts.push(*part);
        }
    }
    parts
}

//! The longest pieces of a case.

ghost use Rattle.std.specs.Prelude.{◌≡◌, ◌+◌, ◌-◌, ◌<◌, ◌≤◌, ◌≤ℤ◌, ◌+ℤ◌, length, map, true, pos, IfOk};
ghost use Rattle.certificate.specs.Certificate.{piece_data};
ghost use Rattle.cover_checker.specs.Acceptance.{ShowBound};
ghost use Rattle.cover_finder.specs.Common.{IsPiece, claim_data, holds, is_inside, size_of, stretch_over};
ghost use Rattle.cover_finder.specs.Hull.{IsHullWithout};
ghost use Rattle.cover_finder.specs.Open.{AreLongest, IsLongest, LiesInside};
ghost use Rattle.cover_finder.specs.Table.{AreListed};

use crate::table::{Table, said_over};
use certificate::Piece;
use claim_file::Claim;
use feasibility::Groups;
use intersection::kinds::Hull;
use span_cover::{Stretch, is_inside, piece_hull};
use std::alloc::{AllocError, Global};

/// How often the place is changed at which a piece's end is looked for.
const LOOKS: u8 = 6;

/// The readings from one to another.
fn stretch_of(begin: u64, end: u64) -> Stretch
    requires { begin ≤ end }
    ensures piece { IsPiece result.begin result.end }
    ensures exact { result ≡ stretch_over (pos begin) (pos end) }
{
    Stretch {
        begin: i128::from(begin),
        end: i128::from(end),
    }
}

/// The next tick, but no later than the last one.
fn tick_after(begin: u64, last: u64) -> u64
    requires { begin ≤ last }
    ensures from_begin { begin ≤ result }
    ensures one_tick { result ≤ begin + 1 }
    ensures to_last { result ≤ last }
{
    if begin < last { begin + 1 } else { last }
}

/// A case: the groups that it leaves out, and how many ticks more than the claim's the bound is
/// that its pieces have to show.
#[derive(Clone, Copy)]
pub(crate) struct Search<'a> {
    pub(crate) tables: &'a [Table],
    pub(crate) claim: &'a Claim,
    pub(crate) out: Groups,
    pub(crate) more: u8,
    ghost listed: { AreListed (length claim.now.groups.items) tables.now },
}

/// Where the longest pieces of a case stop.
#[derive(Clone, Copy)]
pub(crate) enum Stop {
    /// At the span's end.
    End,
    /// At a tick that isn't shown, from this reading to that one.
    Unshown([u64; 2]),
    /// As many are made as may be.
    Full,
}

/// The number to try next of those above `low` up to `high`, if the answer changes most likely
/// behind `near`: that one first, then what lies beside it, and twice as far each time, but no
/// further than halfway. So a search takes at most twice as many turns as its numbers have bits.
fn trial(low: u64, high: u64, near: u64) -> u64
    requires { low < high }
    ensures above_low { low < result }
    ensures to_high { result ≤ high }
{
    let half = (high - low) / 2;
    if near <= low {
        low + 1 + (low - near).min(half)
    } else if near <= high {
        near
    } else {
        high - (near - high - 1).min(half)
    }
}

impl<'a> Search<'a> {
    ghost use Rattle.cover_finder.specs.Reach.{AllShowBound, IsStopOf, OfSearch, ends_of};

    /// The span's first tick.
    fn first(&self) -> u64
        ensures { pos result ≡ self.now.claim.now.first }
    {
        self.claim.first as u64
    }

    /// The span's last tick.
    fn last(&self) -> u64
        ensures { pos result ≡ self.now.claim.now.last }
    {
        self.claim.last as u64
    }

    /// The bound, in ticks.
    fn bound(&self) -> i128
        ensures from_zero { pos 0 ≤ℤ result }
        ensures exact { result ≡ self.now.claim.now.bound +ℤ pos self.now.more }
    {
        self.claim.bound.saturating_add(i128::from(self.more))
    }

    /// Whether a hull lies inside the bound.
    fn shows(&self, hull: Hull) -> bool
        ensures { self.now.more ≡ 0 → result ≡ is_inside self.now.claim.now.bound hull }
    {
        is_inside(self.bound(), hull)
    }

    /// How many groups may be false besides those that are left out.
    fn false_besides(&self) -> u8
        ensures { result ≡ self.now.claim.now.false_max
            - size_of (claim_data self.now.claim.now) (holds self.now.out) }
    {
        let named = self.out.count(self.claim.groups.len() as u8);
        self.claim.false_max.saturating_sub(named)
    }

    /// The hull over a stretch of what the groups say that aren't left out.
    fn hull(&self, begin: u64, end: u64) -> Hull
        requires { begin ≤ end }
        ensures { OfSearch self.now (λ claim xs out.
            IsHullWithout claim xs (stretch_over (pos begin) (pos end)) out result) }
    {
        let claim = self.claim;
        let said = said_over(self.tables, claim, self.out, stretch_of(begin, end));
        let few = self.false_besides();
        piece_hull(said.parts.as_slice(), claim.groups.as_slice(), few)
    }

    /// Whether the hull over a stretch lies inside the bound.
    fn is_shown(&self, begin: u64, end: u64) -> bool
        requires { begin ≤ end }
        ensures { OfSearch self.now (λ claim xs out.
            LiesInside claim xs out (pos begin) (pos end) result) }
    {
        self.shows(self.hull(begin, end))
    }

    /// Where a piece likely ends that has this hull if it ends here: a hull's ends move no faster
    /// than the error may fall.
    fn likely_end(&self, end: u64, hull: Hull) -> u64 {
        let Hull::Bounded { lo, hi } = hull else {
            return end;
        };
        let room = self.bound().saturating_sub(hi.max(lo.saturating_neg()));
        let drift = i128::from(self.claim.drift_ppb);
        let Some(more) = room
            .saturating_mul(1_000_000_000 - drift)
            .checked_div(drift)
        else {
            return self.claim.last as u64;
        };
        u64::try_from(i128::from(end).saturating_add(more)).unwrap_or(end)
    }

    /// Where the longest piece from `begin` ends, if the one to `next` shows the bound. It is
    /// looked for at `near` first, and then where the hulls that are seen say, a few times.
    fn longest_end(&self, begin: u64, next: u64, near: u64) -> u64
        requires next { begin ≤ next }
        requires last { pos next ≤ℤ self.now.claim.now.last }
        requires shown { OfSearch self.now (λ claim xs out.
            LiesInside claim xs out (pos begin) (pos next) true) }
        ensures from_begin { begin ≤ result }
        ensures to_last { pos result ≤ℤ self.now.claim.now.last }
        ensures longest { OfSearch self.now (λ claim xs out.
            IsLongest claim xs out (pos begin) (pos result)) }
    {
        let mut low = next;
        let mut high = self.last();
        let mut near = near;
        let mut looks = 0u8;
        while low < high {
            let end = trial(low, high, near);
            let hull = self.hull(begin, end);
            if looks < LOOKS {
                looks += 1;
                near = self.likely_end(end, hull);
            }
            if self.shows(hull) {
                low = end;
            } else {
                high = end - 1;
            }
        }
        low
    }

    /// The longest piece from `begin`, if the one to `next` shows the bound. Its end is looked for
    /// at `near` first.
    fn longest_piece(&self, begin: u64, next: u64, near: u64) -> Piece
        requires next { begin ≤ next }
        requires last { pos next ≤ℤ self.now.claim.now.last }
        requires shown { OfSearch self.now (λ claim xs out.
            LiesInside claim xs out (pos begin) (pos next) true) }
        ensures from_begin { begin ≤ result.upto }
        ensures to_last { pos result.upto ≤ℤ self.now.claim.now.last }
        ensures longest { OfSearch self.now (λ claim xs out.
            IsLongest claim xs out (pos begin) (pos result.upto)) }
        ensures shows { OfSearch self.now (λ claim xs out.
            ShowBound claim xs out (stretch_over (pos begin) (pos result.upto))
            result.entries.items) }
    {
        let upto = self.longest_end(begin, next, near);
        let stretch = stretch_of(begin, upto);
        let entries = said_over(self.tables, self.claim, self.out, stretch).entries;
        Piece { upto, entries }
    }

    /// The longest pieces, one after another, at most as many as are left, and where they stop.
    pub(crate) fn longest_pieces(
        &self,
        alloc: Global,
        left: usize,
    ) -> Result<(Vec<Piece>, Stop), AllocError>
        ensures few { IfOk result (λ found. length found.0.items ≤ left) }
        ensures longest { IfOk result (λ found. OfSearch self.now (λ claim xs out.
            AreLongest claim xs out claim.first (ends_of (map piece_data found.0.items)))) }
        ensures show { IfOk result (λ found. OfSearch self.now (λ claim xs out.
            AllShowBound claim xs out (map piece_data found.0.items))) }
        ensures stop { IfOk result (λ found. OfSearch self.now (λ claim xs out.
            IsStopOf claim xs out left (ends_of (map piece_data found.0.items)) found.1)) }
    {
        let last = self.last();
        let mut begin = self.first();
        let mut length = 0;
        let mut pieces = Vec::new(alloc);
        'pieces: while pieces.len() < left {
            let next = tick_after(begin, last);
            if !self.is_shown(begin, next) {
                return Ok((pieces, Stop::Unshown([begin, next])));
            }
            let piece = self.longest_piece(begin, next, begin.saturating_add(length));
            let end = piece.upto;
            pieces.push(piece)?;
            if end == last {
                return Ok((pieces, Stop::End));
            }
            length = end.saturating_sub(begin);
            begin = end;
        }
        Ok((pieces, Stop::Full))
    }
}

//! Hulls by covers: what the clock's error can't be outside of, in any course of events that fits.
//!
//! The groups that hold a false server in a course hold all groups of some minimal cover. What the
//! others say has a hull, by as many fewer that may be false. So the least hull with all of these
//! in it, a cover's each, holds the error in every course.

ghost use Rattle.std.specs.Prelude.{◌≡◌, ◌-◌, ◌≤◌, List, length, map, All, IfOk};
ghost use Rattle.cover_finder.specs.Common.{Exchange, IsLawful, IsPiece, claim_data, holds, size_of};
ghost use Rattle.cover_finder.specs.Finder.{IsFinderFor, IsFinderOf};
ghost use Rattle.cover_finder.specs.Hull.{AreCasesOfCovers, AreOfCovers, IsHullByCovers, IsHullOf, IsHullWithout, join_of};
ghost use Rattle.cover_finder.specs.Table.{AreListed, AreTablesOf};

use crate::table::{Table, said_over, tables_of};
use arrayvec::ArrayVec;
use claim_file::Claim;
use feasibility::laws::tables_settle_covers;
use feasibility::{Groups, conflicts_of};
use intersection::kinds::Hull;
use pairing::ToExchange;
use span_cover::{Stretch, piece_hull};
use std::alloc::{AllocError, Global};

/// How many groups may be false besides these.
fn false_besides(claim: &Claim, out: Groups) -> u8
    ensures { result ≡ claim.now.false_max - size_of (claim_data claim.now) (holds out) }
{
    let named = out.count(claim.groups.len() as u8);
    claim.false_max.saturating_sub(named)
}

/// The hull over a stretch in the courses in which these groups hold a false server each.
fn hull_without(claim: &Claim, tables: &[Table], out: Groups, stretch: Stretch) -> Hull
    requires stretch { IsPiece stretch.begin stretch.end }
    requires listed { AreListed (length claim.now.groups.items) tables.now }
    ensures { (xs : List Exchange) → AreTablesOf (claim_data claim.now) xs tables.now →
        IsHullWithout (claim_data claim.now) xs stretch (holds out) result }
{
    let said = said_over(tables, claim, out, stretch);
    let few = false_besides(claim, out);
    piece_hull(said.parts.as_slice(), claim.groups.as_slice(), few)
}

/// The least hull that holds what either of two holds.
fn join(a: Hull, b: Hull) -> Hull
    ensures { result ≡ join_of a b }
{
    match (a, b) {
        (Hull::Unbounded, _) | (_, Hull::Unbounded) => Hull::Unbounded,
        (Hull::Empty, other) | (other, Hull::Empty) => other,
        (Hull::Bounded { lo, hi }, Hull::Bounded { lo: low, hi: high }) => {
            Hull::Bounded {
                lo: lo.min(low),
                hi: hi.max(high),
            }
        }
    }
}

/// The hull over a stretch in the courses in which all groups of some of these sets hold a false
/// server each.
fn hull_over(claim: &Claim, tables: &[Table], cases: &[Groups], stretch: Stretch) -> Hull
    requires stretch { IsPiece stretch.begin stretch.end }
    requires listed { AreListed (length claim.now.groups.items) tables.now }
    ensures { (xs : List Exchange) → AreTablesOf (claim_data claim.now) xs tables.now →
        IsHullOf (claim_data claim.now) xs stretch cases.now result }
{
    let mut hull = Hull::Empty;
    for out in cases {
        hull = join(hull, hull_without(claim, tables, *out, stretch));
    }
    hull
}

/// These covers, or if there may be more, the empty set alone, which every set holds.
fn cases_of(covers: ArrayVec<Groups, 64>) -> ArrayVec<Groups, 64>
    ensures { AreOfCovers covers.items result.items }
{
    if covers.is_full() {
        let mut cases = ArrayVec::new();
        cases.push(Groups::default());
        cases
    } else {
        covers
    }
}

/// The cases of the minimal covers of the conflicts.
fn cases<X: ToExchange>(
    alloc: Global,
    exchanges: &[X],
    claim: &Claim,
) -> Result<ArrayVec<Groups, 64>, AllocError>
    requires exchanges { All (IsLawful (length claim.now.servers.items))
        (map X.shown exchanges.now) }
    ensures { IfOk result (λ cases. AreCasesOfCovers (claim_data claim.now)
        (map X.shown exchanges.now) cases.items) }
{
    tables_settle_covers();
    let conflicts = conflicts_of(alloc, exchanges, claim)?;
    Ok(cases_of(conflicts.covers(claim.false_max)))
}

/// Hulls by covers of a claim and exchanges, over any stretch.
#[derive(Drop)]
pub struct HullFinder {
    pub(crate) cases: ArrayVec<Groups, 64>,
    pub(crate) tables: Vec<Table>,
}

impl HullFinder {
    /// Looks for the covers, and lays out the marks.
    ///
    /// There are at most 1,000,000 exchanges. The one error is that no memory is left.
    pub fn new<X: ToExchange>(
        alloc: Global,
        exchanges: &[X],
        claim: &Claim,
    ) -> Result<HullFinder, AllocError>
        requires exchanges { All (IsLawful (length claim.now.servers.items))
            (map X.shown exchanges.now) }
        requires few { length exchanges.now ≤ 1_000_000 }
        ensures { IfOk result (IsFinderFor (claim_data claim.now) (map X.shown exchanges.now)) }
    {
        let cases = cases(alloc, exchanges, claim)?;
        let tables = tables_of(alloc, exchanges, claim)?;
        Ok(HullFinder { cases, tables })
    }

    /// The hull by covers over a stretch, of the exchanges for which the finder was made, and of
    /// the same claim. If there may be more than 63 minimal covers, it is one by marks alone.
    pub fn hull(&self, claim: &Claim, stretch: Stretch) -> Hull
        requires stretch { IsPiece stretch.begin stretch.end }
        requires finder { IsFinderOf (claim_data claim.now) self.now }
        ensures { (xs : List Exchange) → IsFinderFor (claim_data claim.now) xs self.now →
            IsHullByCovers (claim_data claim.now) xs stretch result }
    {
        hull_over(
            claim,
            self.tables.as_slice(),
            self.cases.as_slice(),
            stretch,
        )
    }
}

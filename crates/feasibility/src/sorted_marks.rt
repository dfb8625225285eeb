//! The marks of each group, gathered once and sorted once.

ghost use Rattle.std.specs.Prelude.{◌≡◌, ◌↔◌, IfOk, IsTrue, length, map, All};
ghost use Rattle.feasibility.specs.Common.{data_of as claim_data, IsLawful as IsLawfulExchange, IsRate};
ghost use Rattle.feasibility.specs.SortedMarks.{AreSorted, AreMarksOf, AreOfGroupsInOrder};
ghost use Rattle.feasibility.specs.TrueMarks.{AreAllCompatible};

use crate::kept_marks::KeptMarks;
use claim_file::Claim;
use error_marks::{all_compatible_in_order, sort_marks};
use pairing::ToExchange;
use std::alloc::{AllocError, Global};

/// What a group says.
#[derive(Drop)]
pub(crate) struct SortedMarks {
    /// The group can do without a false server: its exchanges are possible, and its marks agree.
    pub(crate) is_sound: bool,
    /// Its marks, in the order of their places.
    kept: KeptMarks,
}

impl SortedMarks {
    /// The marks of a group.
    fn of_group<X: ToExchange>(
        alloc: Global,
        exchanges: &[X],
        claim: &Claim,
        group: u8,
    ) -> Result<SortedMarks, AllocError>
        requires exchanges { All (IsLawfulExchange (length claim.now.servers.items))
            (map X.shown exchanges.now) }
        ensures { IfOk result
            (AreMarksOf (claim_data claim.now) (map X.shown exchanges.now) group) }
    {
        let mut kept = KeptMarks::none(alloc);
        let is_possible = kept.add_group(exchanges, claim, group)?;
        let is_sound = is_possible && kept.sort_and_compare(claim.drift_ppb);
        Ok(SortedMarks { is_sound, kept })
    }

    /// Whether the low marks of each are compatible with the high marks of the other.
    pub(crate) fn agrees_with(&self, other: &SortedMarks, drift_ppb: u32) -> bool
        requires rate { IsRate drift_ppb }
        requires one { AreSorted self.now.kept }
        requires other { AreSorted other.now.kept }
        ensures { IsTrue result ↔
            (AreAllCompatible drift_ppb self.now.kept.lows.items other.now.kept.highs.items
            × AreAllCompatible drift_ppb other.now.kept.lows.items self.now.kept.highs.items) }
    {
        all_compatible_in_order(drift_ppb, &self.kept.lows, &other.kept.highs)
            && all_compatible_in_order(drift_ppb, &other.kept.lows, &self.kept.highs)
    }
}

/// The marks of each group. There are as many groups as servers, of which some may be empty.
pub(crate) fn marks_by_group<X: ToExchange>(
    alloc: Global,
    exchanges: &[X],
    claim: &Claim,
) -> Result<Vec<SortedMarks>, AllocError>
    requires exchanges { All (IsLawfulExchange (length claim.now.servers.items))
        (map X.shown exchanges.now) }
    ensures count { IfOk result (λ marks.
        length marks.items ≡ length claim.now.servers.items) }
    ensures each { IfOk result (λ marks. AreOfGroupsInOrder (claim_data claim.now)
        (map X.shown exchanges.now) marks.items) }
{
    let mut marks = Vec::new(alloc);
    for group in 0..claim.servers.len() {
        let of_group = SortedMarks::of_group(alloc, exchanges, claim, group as u8)?;
        marks.push(of_group)?;
    }
    Ok(marks)
}

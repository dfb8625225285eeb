//! The marks of each group, gathered once, under the numbers of their exchanges.

ghost use Rattle.std.specs.Prelude.{◌≡◌, ◌≢◌, ◌<◌, ◌==◌, ℕ, IfOk, MatchOption, length, map, List, All};
ghost use Rattle.feasibility.specs.Common.{ClaimData, data_of as claim_data, AllCompatible, IsLawful as IsLawfulExchange, Exchange, IsRate};
ghost use Rattle.feasibility.specs.Cover.{group_of};
ghost use Rattle.feasibility.specs.NumberedMarks.{IsNumbered, AreNumberedOf, AreNumberedInOrder, IsFirstApart, IsFirstIfAny};
ghost use Rattle.feasibility.specs.PairMarks as spec;
ghost use Rattle.feasibility.specs.PairMarks.{pair_of, IsImpossibleAt, IsFirstImpossible};

use crate::contradiction::{Contradiction, earlier};
use claim_file::Claim;
use error_marks::{Mark, first_conflict, high_mark, is_possible, low_mark};
use pairing::{Exchange, ToExchange};
use std::alloc::{AllocError, Global};

/// The exchanges of a group, in the order of the list.
#[derive(Drop)]
pub(crate) struct NumberedMarks {
    /// Their numbers in the list.
    numbers: Vec<usize>,
    /// The low mark of each.
    lows: Vec<Mark>,
    /// The high mark of each.
    highs: Vec<Mark>,
    /// The number of the first that is impossible by itself, if there is one.
    alone: Option<usize>,
}

/// Whether the exchange is of a group.
fn is_of(exchange: &Exchange, claim: &Claim, group: u8) -> bool
    requires exchange { IsLawfulExchange (length claim.now.servers.items) exchange.now }
    ensures { result ≡ (group_of (claim_data claim.now) exchange.now == group) }
{
    claim.groups[exchange.server as usize] == group
}

/// The number of the first exchange of a group that is impossible by itself, if there is one.
fn first_impossible<X: ToExchange>(exchanges: &[X], claim: &Claim, group: u8) -> Option<usize>
    requires exchanges { All (IsLawfulExchange (length claim.now.servers.items))
        (map X.shown exchanges.now) }
    ensures { MatchOption result
        ((k : ℕ) → ¬ (IsImpossibleAt (claim_data claim.now) (map X.shown exchanges.now) group k))
        (λ k. IsFirstImpossible (claim_data claim.now) (map X.shown exchanges.now) group k) }
{
    for (number, exchange) in exchanges.iter().enumerate() {
        let exchange = exchange.to_exchange();
        if is_of(&exchange, claim, group) && !is_possible(&exchange, claim.reading) {
            return Some(number);
        }
    }
    None
}

/// One exchange in place of two.
fn twice(number: Option<usize>) -> Option<Contradiction>
    ensures { result ≡ spec.twice number }
{
    match number {
        Some(number) => Some(Contradiction {
            low: number,
            high: number,
        }),
        None => None,
    }
}

impl NumberedMarks {
    /// The exchanges of a group.
    pub(crate) fn of_group<X: ToExchange>(
        alloc: Global,
        exchanges: &[X],
        claim: &Claim,
        group: u8,
    ) -> Result<NumberedMarks, AllocError>
        requires exchanges { All (IsLawfulExchange (length claim.now.servers.items))
            (map X.shown exchanges.now) }
        ensures numbered { IfOk result IsNumbered }
        ensures exact { IfOk result
            (AreNumberedOf (claim_data claim.now) (map X.shown exchanges.now) group) }
    {
        let mut numbers = Vec::new(alloc);
        let mut lows = Vec::new(alloc);
        let mut highs = Vec::new(alloc);
        for (number, exchange) in exchanges.iter().enumerate() {
            let exchange = exchange.to_exchange();
            if is_of(&exchange, claim, group) {
                numbers.push(number)?;
                lows.push(low_mark(&exchange, claim.reading))?;
                highs.push(high_mark(&exchange, claim.reading))?;
            }
        }
        let alone = first_impossible(exchanges, claim, group);
        Ok(NumberedMarks {
            numbers,
            lows,
            highs,
            alone,
        })
    }

    /// The exchanges of the first low mark here and high mark there that aren't compatible.
    fn first_against(
        &self,
        alloc: Global,
        other: &NumberedMarks,
        drift_ppb: u32,
    ) -> Result<Option<Contradiction>, AllocError>
        requires rate { IsRate drift_ppb }
        requires one { IsNumbered self.now }
        requires other { IsNumbered other.now }
        ensures { IfOk result (λ found. MatchOption found
            (AllCompatible drift_ppb self.now.lows.items other.now.highs.items)
            (λ pair. IsFirstApart drift_ppb self.now other.now (pair_of pair))) }
    {
        match first_conflict(alloc, drift_ppb, &self.lows, &other.highs)? {
            Some((low, high)) => Ok(Some(Contradiction {
                low: self.numbers[low],
                high: other.numbers[high],
            })),
            None => Ok(None),
        }
    }

    /// The first contradiction of this group and another one.
    #[tactic(auto, using(crate::proofs::FirstPairs::first_of_two))]
    pub(crate) fn contradiction_with(
        &self,
        alloc: Global,
        other: &NumberedMarks,
        drift_ppb: u32,
    ) -> Result<Option<Contradiction>, AllocError>
        requires rate { IsRate drift_ppb }
        requires one { IsNumbered self.now }
        requires other { IsNumbered other.now }
        ensures { IfOk result (λ found. (claim : ClaimData) (xs : List Exchange) (a b : ℕ) →
            claim.drift_ppb ≡ drift_ppb → a ≢ b → AreNumberedOf claim xs a self.now →
            AreNumberedOf claim xs b other.now → IsFirstIfAny claim xs a b found) }
    {
        let forth = self.first_against(alloc, other, drift_ppb)?;
        let back = other.first_against(alloc, self, drift_ppb)?;
        Ok(earlier(forth, back))
    }

    /// The first contradiction of this group with itself, or exchange that is impossible by itself.
    #[tactic(auto, using(crate::proofs::FirstPairs::first_of_own))]
    pub(crate) fn own_contradiction(
        &self,
        alloc: Global,
        drift_ppb: u32,
    ) -> Result<Option<Contradiction>, AllocError>
        requires rate { IsRate drift_ppb }
        requires one { IsNumbered self.now }
        ensures { IfOk result (λ found. (claim : ClaimData) (xs : List Exchange) (a : ℕ) →
            claim.drift_ppb ≡ drift_ppb → AreNumberedOf claim xs a self.now →
            IsFirstIfAny claim xs a a found) }
    {
        let apart = self.first_against(alloc, self, drift_ppb)?;
        Ok(earlier(apart, twice(self.alone)))
    }
}

/// The exchanges of each group. There are as many groups as servers, of which some may be empty.
pub(crate) fn numbered_by_group<X: ToExchange>(
    alloc: Global,
    exchanges: &[X],
    claim: &Claim,
) -> Result<Vec<NumberedMarks>, AllocError>
    requires exchanges { All (IsLawfulExchange (length claim.now.servers.items))
        (map X.shown exchanges.now) }
    ensures count { IfOk result (λ marks. length marks.items ≡ length claim.now.servers.items) }
    ensures numbered { IfOk result (λ marks. All IsNumbered marks.items) }
    ensures each { IfOk result (λ marks. AreNumberedInOrder (claim_data claim.now)
        (map X.shown exchanges.now) marks.items) }
{
    let mut marks = Vec::new(alloc);
    for group in 0..claim.servers.len() {
        let of_group = NumberedMarks::of_group(alloc, exchanges, claim, group as u8)?;
        marks.push(of_group)?;
    }
    Ok(marks)
}

/// The first contradiction of two groups, or of one.
pub(crate) fn first_of_groups(
    alloc: Global,
    drift_ppb: u32,
    marks: &[NumberedMarks],
    a: u8,
    b: u8,
) -> Result<Option<Contradiction>, AllocError>
    requires rate { IsRate drift_ppb }
    requires numbered { All IsNumbered marks.now }
    requires a_within { a < length marks.now }
    requires b_within { b < length marks.now }
    ensures { IfOk result (λ found. (claim : ClaimData) (xs : List Exchange) →
        claim.drift_ppb ≡ drift_ppb → AreNumberedInOrder claim xs marks.now →
        IsFirstIfAny claim xs a b found) }
{
    let one = &marks[a as usize];
    if a == b {
        one.own_contradiction(alloc, drift_ppb)
    } else {
        one.contradiction_with(alloc, &marks[b as usize], drift_ppb)
    }
}

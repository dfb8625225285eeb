//! The marks that a course has to keep.

ghost use Rattle.std.specs.Prelude.{◌≡◌, [], ◌∷◌, ◌++◌, ◌↔◌, IfOk, IsTrue, IsPermutation, length, map, All};
ghost use Rattle.feasibility.specs.Common.{list_all, IsLawful as IsLawfulExchange, is_liar, low_mark, high_mark, IsWithinRange, IsRate};
ghost use Rattle.feasibility.specs.DriftTest.{all_compatible, is_possible};
ghost use Rattle.feasibility.specs.GroupMarks.{is_outside};
ghost use Rattle.feasibility.specs.SortedMarks.{AreSorted};
ghost use Rattle.feasibility.specs.TrueMarks.{true_exchanges, low_marks, high_marks, AreAllCompatible};

use claim_file::Claim;
use error_marks::{
    Mark, all_compatible, all_compatible_in_order, high_mark, is_possible, low_mark, sort_marks,
};
use pairing::{Exchange, ToExchange};
use std::alloc::{AllocError, Global};

/// Low marks and high marks.
#[derive(Drop)]
pub(crate) struct KeptMarks {
    pub(crate) lows: Vec<Mark>,
    pub(crate) highs: Vec<Mark>,
}

impl KeptMarks {
    /// No mark yet.
    pub(crate) fn none(alloc: Global) -> KeptMarks
        ensures lows { result.lows.items ≡ [] }
        ensures highs { result.highs.items ≡ [] }
    {
        KeptMarks {
            lows: Vec::new(alloc),
            highs: Vec::new(alloc),
        }
    }

    /// One mark, as a low one and as a high one.
    pub(crate) fn of_one(alloc: Global, mark: Mark) -> Result<KeptMarks, AllocError>
        requires { IsWithinRange mark }
        ensures lows { IfOk result (λ kept. kept.lows.items ≡ mark ∷ []) }
        ensures highs { IfOk result (λ kept. kept.highs.items ≡ mark ∷ []) }
    {
        let mut lows = Vec::new(alloc);
        let mut highs = Vec::new(alloc);
        lows.push(mark)?;
        highs.push(mark)?;
        Ok(KeptMarks { lows, highs })
    }

    /// Adds both marks of an exchange if it is possible by itself, and says whether it is.
    fn add(&mut self, exchange: &Exchange, claim: &Claim) -> Result<bool, AllocError>
        requires exchange { IsLawfulExchange (length claim.now.servers.items) exchange.now }
        requires low_range { All IsWithinRange self.old.lows.items }
        requires high_range { All IsWithinRange self.old.highs.items }
        ensures possible { IfOk result (λ possible.
            possible ≡ is_possible claim.now.reading exchange.now) }
        ensures lows { IfOk result (λ possible. IsTrue possible → self.new.lows.items
            ≡ self.old.lows.items ++ low_mark claim.now.reading exchange.now ∷ []) }
        ensures highs { IfOk result (λ possible. IsTrue possible → self.new.highs.items
            ≡ self.old.highs.items ++ high_mark claim.now.reading exchange.now ∷ []) }
        ensures low_range { IfOk result (λ possible. IsTrue possible →
            All IsWithinRange self.new.lows.items) }
        ensures high_range { IfOk result (λ possible. IsTrue possible →
            All IsWithinRange self.new.highs.items) }
    {
        if !is_possible(exchange, claim.reading) {
            return Ok(false);
        }
        self.lows.push(low_mark(exchange, claim.reading))?;
        self.highs.push(high_mark(exchange, claim.reading))?;
        Ok(true)
    }

    /// Adds the marks of the exchanges whose servers aren't liars, as long as each of these is
    /// possible by itself, and says whether all are.
    pub(crate) fn add_all<X: ToExchange>(
        &mut self,
        exchanges: &[X],
        claim: &Claim,
        liars: &[u8],
    ) -> Result<bool, AllocError>
        requires exchanges { All (IsLawfulExchange (length claim.now.servers.items))
            (map X.shown exchanges.now) }
        requires low_range { All IsWithinRange self.old.lows.items }
        requires high_range { All IsWithinRange self.old.highs.items }
        ensures possible { IfOk result (λ possible. possible
            ≡ list_all (is_possible claim.now.reading)
            (true_exchanges (is_liar liars.now) (map X.shown exchanges.now))) }
        ensures lows { IfOk result (λ possible. IsTrue possible → self.new.lows.items
            ≡ self.old.lows.items
            ++ low_marks claim.now.reading (is_liar liars.now) (map X.shown exchanges.now)) }
        ensures highs { IfOk result (λ possible. IsTrue possible → self.new.highs.items
            ≡ self.old.highs.items
            ++ high_marks claim.now.reading (is_liar liars.now) (map X.shown exchanges.now)) }
        ensures low_range { IfOk result (λ possible. IsTrue possible →
            All IsWithinRange self.new.lows.items) }
        ensures high_range { IfOk result (λ possible. IsTrue possible →
            All IsWithinRange self.new.highs.items) }
    {
        for exchange in exchanges {
            let exchange = exchange.to_exchange();
            if !liars.contains(&exchange.server) && !self.add(&exchange, claim)? {
                return Ok(false);
            }
        }
        Ok(true)
    }

    /// Adds the marks of the exchanges with servers of a group, as long as each of these is
    /// possible by itself, and says whether all are.
    pub(crate) fn add_group<X: ToExchange>(
        &mut self,
        exchanges: &[X],
        claim: &Claim,
        group: u8,
    ) -> Result<bool, AllocError>
        requires exchanges { All (IsLawfulExchange (length claim.now.servers.items))
            (map X.shown exchanges.now) }
        requires low_range { All IsWithinRange self.old.lows.items }
        requires high_range { All IsWithinRange self.old.highs.items }
        ensures possible { IfOk result (λ possible. possible
            ≡ list_all (is_possible claim.now.reading)
            (true_exchanges (is_outside claim.now.groups.items group)
            (map X.shown exchanges.now))) }
        ensures lows { IfOk result (λ possible. IsTrue possible → self.new.lows.items
            ≡ self.old.lows.items ++ low_marks claim.now.reading
            (is_outside claim.now.groups.items group) (map X.shown exchanges.now)) }
        ensures highs { IfOk result (λ possible. IsTrue possible → self.new.highs.items
            ≡ self.old.highs.items ++ high_marks claim.now.reading
            (is_outside claim.now.groups.items group) (map X.shown exchanges.now)) }
        ensures low_range { IfOk result (λ possible. IsTrue possible →
            All IsWithinRange self.new.lows.items) }
        ensures high_range { IfOk result (λ possible. IsTrue possible →
            All IsWithinRange self.new.highs.items) }
    {
        for exchange in exchanges {
            let exchange = exchange.to_exchange();
            let is_inside = claim.groups[exchange.server as usize] == group;
            if is_inside && !self.add(&exchange, claim)? {
                return Ok(false);
            }
        }
        Ok(true)
    }

    /// Whether each low mark is compatible with each high mark, at this rate of drift in parts of
    /// 10^9, up to 500,000,000. The marks change their order.
    pub(crate) fn are_compatible(&mut self, drift_ppb: u32) -> bool
        requires rate { IsRate drift_ppb }
        requires low_range { All IsWithinRange self.old.lows.items }
        requires high_range { All IsWithinRange self.old.highs.items }
        ensures { result
            ≡ all_compatible drift_ppb self.old.lows.items self.old.highs.items }
    {
        all_compatible(drift_ppb, &mut self.lows, &mut self.highs)
    }

    /// Puts the marks in the order of their places, and says whether each low mark is compatible
    /// with each high mark, at this rate of drift in parts of 10^9, up to 500,000,000.
    pub(crate) fn sort_and_compare(&mut self, drift_ppb: u32) -> bool
        requires rate { IsRate drift_ppb }
        requires low_range { All IsWithinRange self.old.lows.items }
        requires high_range { All IsWithinRange self.old.highs.items }
        ensures exact { IsTrue result
            ↔ AreAllCompatible drift_ppb self.old.lows.items self.old.highs.items }
        ensures lows { IsPermutation self.old.lows.items self.new.lows.items }
        ensures highs { IsPermutation self.old.highs.items self.new.highs.items }
        ensures sorted { AreSorted self.new }
    {
        sort_marks(&mut self.lows);
        sort_marks(&mut self.highs);
        all_compatible_in_order(drift_ppb, &self.lows, &self.highs)
    }
}

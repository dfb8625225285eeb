//! What servers say over any stretch.

ghost use Rattle.std.specs.Prelude.{◌≡◌, ◌+◌, ◌-◌, ◌<◌, ◌≤◌, ◌^◌, neg_ℤ, not, List, length, map, All, IfOk, IfSome, IsPermutation, MatchOption, slice_index, unsigned_abs};
ghost use Rattle.cover_finder.specs.Common.{ClaimData, Exchange as TheExchange, IsLawful, IsPiece, IsRate, IsWithinRange, claim_data, holds};
ghost use Rattle.cover_finder.specs.Hull.{AreWhole};
ghost use Rattle.cover_finder.specs.Side.{AreInOrder};
ghost use Rattle.cover_finder.specs.Table.{AreInStep, AreListed, AreMarksUpto, AreTablesOf, HasNone, IsAllSaid, IsSaidWithout, IsSideOfServer, IsTableOf};
ghost use Rattle.cover_finder.specs.Table as spec;

use crate::peak::{End, Numbered};
use crate::side::Side;
use arrayvec::ArrayVec;
use claim_file::Claim;
use cover_checker::exchange_named;
use error_marks::{Mark, high_mark, low_mark};
use feasibility::Groups;
use intersection::kinds::Interval;
use pairing::{Exchange, ToExchange};
use span_cover::{Part, Stretch};
use std::alloc::{AllocError, Global};

/// The marks of a server that has some.
#[derive(Drop)]
pub(crate) struct Table {
    server: u8,
    lows: Side,
    /// With their errors turned.
    highs: Side,
}

/// What the servers outside some groups say over a stretch, and the exchanges by which they do.
#[derive(Default, Drop)]
pub(crate) struct Said {
    pub(crate) parts: ArrayVec<Part, 32>,
    pub(crate) entries: ArrayVec<(u32, u32), 32>,
}

/// The high mark of an exchange with its error turned.
fn turned_high(x: &Exchange, claim: &Claim) -> Mark
    requires { IsLawful (length claim.now.servers.items) x.now }
    ensures exact { result ≡ spec.turned_high (claim_data claim.now).reading x.now }
    ensures range { IsWithinRange result }
{
    let mark = high_mark(x, claim.reading);
    Mark {
        place: mark.place,
        error: -mark.error,
    }
}

/// A mark of an exchange: the low one, or the high one with its error turned.
fn mark_of(x: &Exchange, claim: &Claim, is_high: bool) -> Mark
    requires { IsLawful (length claim.now.servers.items) x.now }
    ensures exact { result ≡ spec.mark_of is_high (claim_data claim.now).reading x.now }
    ensures range { IsWithinRange result }
{
    if is_high {
        turned_high(x, claim)
    } else {
        low_mark(x, claim.reading)
    }
}

/// The mark of an exchange, if it is of a server.
fn mark_for<X: ToExchange>(
    exchanges: &[X],
    claim: &Claim,
    server: u8,
    is_high: bool,
    number: u32,
) -> Option<Numbered>
    requires exchanges { All (IsLawful (length claim.now.servers.items))
        (map X.shown exchanges.now) }
    ensures mark { spec.IsMarkIfOf (spec.mark_of is_high (claim_data claim.now).reading)
        (map X.shown exchanges.now) server number result }
    ensures range { IfSome result (λ one. IsWithinRange one.mark) }
{
    let x = exchange_named(exchanges, number)?;
    if x.server != server {
        return None;
    }
    let mark = mark_of(&x, claim, is_high);
    Some(Numbered { mark, number })
}

/// Puts marks in the order of their places.
fn sort_marks(marks: &mut [Numbered])
    ensures permutation { IsPermutation marks.old marks.new }
    ensures order { AreInOrder marks.new }
{
    marks.sort_unstable_by_key(|one| one.mark.place);
}

/// The same marks in the order of their places.
fn sorted(marks: Vec<Numbered>) -> Vec<Numbered>
    ensures permutation { IsPermutation marks.items result.items }
    ensures order { AreInOrder result.items }
{
    let mut sorted = marks;
    sort_marks(&mut sorted);
    sorted
}

/// The marks of a server, in the order of the exchanges.
fn gathered<X: ToExchange>(
    alloc: Global,
    exchanges: &[X],
    claim: &Claim,
    server: u8,
    is_high: bool,
) -> Result<Vec<Numbered>, AllocError>
    requires exchanges { All (IsLawful (length claim.now.servers.items))
        (map X.shown exchanges.now) }
    requires few { length exchanges.now ≤ 1_000_000 }
    ensures are { IfOk result (λ marks.
        AreMarksUpto (spec.mark_of is_high (claim_data claim.now).reading)
        (map X.shown exchanges.now) server (length (map X.shown exchanges.now)) marks.items) }
    ensures range { IfOk result (λ marks. All (λ one. IsWithinRange one.mark) marks.items) }
{
    let mut marks = Vec::new(alloc);
    for number in 0..exchanges.len() as u32 {
        match mark_for(exchanges, claim, server, is_high, number) {
            Some(one) => marks.push(one)?,
            None => {}
        }
    }
    Ok(marks)
}

/// The marks of a server, in the order of their places.
fn marks_of<X: ToExchange>(
    alloc: Global,
    exchanges: &[X],
    claim: &Claim,
    server: u8,
    is_high: bool,
) -> Result<Vec<Numbered>, AllocError>
    requires exchanges { All (IsLawful (length claim.now.servers.items))
        (map X.shown exchanges.now) }
    requires few { length exchanges.now ≤ 1_000_000 }
    ensures are { IfOk result (λ marks.
        AreMarksUpto (spec.mark_of is_high (claim_data claim.now).reading)
        (map X.shown exchanges.now) server (length (map X.shown exchanges.now)) marks.items) }
    ensures range { IfOk result (λ marks. All (λ one. IsWithinRange one.mark) marks.items) }
    ensures order { IfOk result (λ marks. AreInOrder marks.items) }
{
    let marks = gathered(alloc, exchanges, claim, server, is_high)?;
    Ok(sorted(marks))
}

/// The rate by which an end is moved towards a stretch's end: high marks rise, low marks fall.
fn onwards(is_high: bool, drift_ppb: u32) -> u32
    requires { IsRate drift_ppb }
    ensures exact { result ≡ spec.onwards is_high drift_ppb }
    ensures some { 0 < result }
{
    if is_high {
        1_000_000_000 + drift_ppb
    } else {
        1_000_000_000 - drift_ppb
    }
}

/// One side of a server's table, if it has an exchange.
fn side_of<X: ToExchange>(
    alloc: Global,
    exchanges: &[X],
    claim: &Claim,
    server: u8,
    is_high: bool,
) -> Result<Option<Side>, AllocError>
    requires exchanges { All (IsLawful (length claim.now.servers.items))
        (map X.shown exchanges.now) }
    requires few { length exchanges.now ≤ 1_000_000 }
    ensures { IfOk result (λ found. MatchOption found
        (HasNone (map X.shown exchanges.now) server)
        (IsSideOfServer (spec.mark_of is_high (claim_data claim.now).reading)
        (claim_data claim.now).drift_ppb
        (spec.onwards is_high (claim_data claim.now).drift_ppb)
        (spec.onwards (not is_high) (claim_data claim.now).drift_ppb)
        (map X.shown exchanges.now) server)) }
{
    let marks = marks_of(alloc, exchanges, claim, server, is_high)?;
    if marks.is_empty() {
        return Ok(None);
    }
    let drift = claim.drift_ppb;
    let (onwards, back) = (onwards(is_high, drift), onwards(!is_high, drift));
    let side = Side::new(alloc, marks.as_slice(), drift, onwards, back)?;
    Ok(Some(side))
}

/// The table of a server, if it has an exchange.
fn table_of<X: ToExchange>(
    alloc: Global,
    exchanges: &[X],
    claim: &Claim,
    server: u8,
) -> Result<Option<Table>, AllocError>
    requires exchanges { All (IsLawful (length claim.now.servers.items))
        (map X.shown exchanges.now) }
    requires few { length exchanges.now ≤ 1_000_000 }
    ensures table { IfOk result (λ found. MatchOption found
        (HasNone (map X.shown exchanges.now) server)
        (IsTableOf (claim_data claim.now) (map X.shown exchanges.now))) }
    ensures server { IfOk result (λ found. IfSome found (λ table. table.server ≡ server)) }
{
    let Some(lows) = side_of(alloc, exchanges, claim, server, false)? else {
        return Ok(None);
    };
    let Some(highs) = side_of(alloc, exchanges, claim, server, true)? else {
        return Ok(None);
    };
    Ok(Some(Table {
        server,
        lows,
        highs,
    }))
}

/// A table for each server that has an exchange, in the order of the servers.
pub(crate) fn tables_of<X: ToExchange>(
    alloc: Global,
    exchanges: &[X],
    claim: &Claim,
) -> Result<Vec<Table>, AllocError>
    requires exchanges { All (IsLawful (length claim.now.servers.items))
        (map X.shown exchanges.now) }
    requires few { length exchanges.now ≤ 1_000_000 }
    ensures are { IfOk result (λ tables.
        AreTablesOf (claim_data claim.now) (map X.shown exchanges.now) tables.items) }
    ensures listed { IfOk result (λ tables.
        AreListed (length claim.now.groups.items) tables.items) }
{
    let mut tables = Vec::new(alloc);
    for server in 0..claim.servers.len() as u8 {
        let found = table_of(alloc, exchanges, claim, server)?;
        match found {
            Some(table) => tables.push(table)?,
            None => {}
        }
    }
    Ok(tables)
}

/// What a server says by these ends.
fn part_of(server: u8, low: End, high: End) -> Part
    requires { unsigned_abs high.error ≤ 2 ^ 107 }
    ensures server { result.server ≡ server }
    ensures lo { result.interval.lo ≡ low.error }
    ensures hi { result.interval.hi ≡ neg_ℤ high.error }
{
    Part {
        server,
        interval: Interval {
            lo: low.error,
            hi: -high.error,
        },
    }
}

/// Whether a server is of one of these groups.
fn is_out(claim: &Claim, out: Groups, server: u8) -> bool
    requires { server < length claim.now.groups.items }
    ensures { result ≡ holds out (slice_index (claim_data claim.now).groups server) }
{
    out.contains(claim.groups[usize::from(server)])
}

impl Table {
    /// What the server says over a stretch, and the exchanges by which it does.
    fn said(&self, stretch: Stretch) -> Option<(Part, (u32, u32))>
        requires { IsPiece stretch.begin stretch.end }
        ensures said { (claim : ClaimData) (xs : List TheExchange) → IsTableOf claim xs self.now →
            MatchOption result ⊥ (λ said. IsAllSaid claim xs stretch said.1 said.0) }
        ensures server { IfSome result (λ said. said.0.server ≡ self.now.server) }
    {
        let low = self.lows.highest(stretch)?;
        let high = self.highs.highest(stretch)?;
        Some((part_of(self.server, low, high), (low.number, high.number)))
    }

    /// The same, unless the server is of one of these groups.
    fn said_without(
        &self,
        claim: &Claim,
        out: Groups,
        stretch: Stretch,
    ) -> Option<(Part, (u32, u32))>
        requires stretch { IsPiece stretch.begin stretch.end }
        requires listed { self.now.server < length claim.now.groups.items }
        ensures said { (xs : List TheExchange) → IsTableOf (claim_data claim.now) xs self.now →
            IsSaidWithout (claim_data claim.now) xs (holds out) stretch self.now result }
        ensures server { IfSome result (λ said. said.0.server ≡ self.now.server) }
    {
        if is_out(claim, out, self.server) {
            return None;
        }
        self.said(stretch)
    }
}

/// What the servers outside these groups say over a stretch, and the exchanges by which they do.
pub(crate) fn said_over(tables: &[Table], claim: &Claim, out: Groups, stretch: Stretch) -> Said
    requires stretch { IsPiece stretch.begin stretch.end }
    requires tables { AreListed (length claim.now.groups.items) tables.now }
    ensures listed { All (λ part. part.server < length claim.now.groups.items) result.parts.items }
    ensures same_number { length result.entries.items ≡ length result.parts.items }
    ensures whole { (xs : List TheExchange) → AreTablesOf (claim_data claim.now) xs tables.now →
        AreWhole (claim_data claim.now) xs (holds out) stretch result.parts.items }
    ensures in_step { (xs : List TheExchange) → AreTablesOf (claim_data claim.now) xs tables.now →
        AreInStep (claim_data claim.now) xs (holds out) stretch result.entries.items
        result.parts.items }
{
    let mut said = Said::default();
    for table in tables {
        match table.said_without(claim, out, stretch) {
            Some(one) => {
                said.parts.push(one.0);
                said.entries.push(one.1);
            }
            None => {}
        }
    }
    said
}

//! The search by covers: for a certificate, or else a refutation.

ghost use Rattle.std.specs.Prelude.{◌≡◌, ◌↔◌, ℕ, ◌<◌, ◌≤◌, ◌^◌, List, length, map, All, IfOk, IfNone, IsSome, IsTrue};
ghost use Rattle.cover_finder.specs.Common.{claim_data, certificate_data, conflict_data, conflicts_data, AreLeastCovers, Exchange, IsConflictTable, IsFew, IsLawful};
ghost use Rattle.cover_finder.specs.Made.{AreMadeOf, IsNotMade, NameAllConflicts};
ghost use Rattle.cover_finder.specs.Made as spec;
ghost use Rattle.cover_finder.specs.Search.{Finds, IsCarriedBy, IsCarriedIfFound};
ghost use Rattle.cover_finder.specs.Table.{AreListed, AreTablesOf};

use crate::laws::what_a_case_leaves_unshown_is_nearly_off;
use crate::reach::{Search, Stop};
use crate::refuted::find_refutation;
use crate::table::{Table, tables_of};
use arrayvec::ArrayVec;
use certificate::{MAX_PIECES, Refutation};
use claim_file::Claim;
use cover_certificate::{Case, CoverCertificate, MAX_CASES, MAX_CONFLICTS};
use cover_checker::{CoverVerdict, check_covers};
use feasibility::laws::tables_settle_covers;
use feasibility::{Conflict, Conflicts, Groups, conflicts_of, first_contradictions};
use pairing::ToExchange;
use std::alloc::{AllocError, Global};

/// The numbers of these groups.
fn numbers_of(claim: &Claim, out: Groups) -> ArrayVec<u8, 32>
    ensures { result.items ≡ spec.numbers_of (claim_data claim.now) out }
{
    let mut numbers = ArrayVec::new();
    for group in 0..claim.groups.len() as u8 {
        if out.contains(group) {
            numbers.push(group);
        }
    }
    numbers
}

/// The numbers of the exchanges that show a conflict.
fn pair_of(conflict: &Conflict) -> (u32, u32)
    requires low { conflict.now.pair.low < 2 ^ 32 }
    requires high { conflict.now.pair.high < 2 ^ 32 }
    ensures { result ≡ spec.pair_of (conflict_data conflict.now) }
{
    (conflict.pair.low as u32, conflict.pair.high as u32)
}

/// The exchanges of all conflicts.
fn pairs_of<X: ToExchange>(
    alloc: Global,
    exchanges: &[X],
    claim: &Claim,
    conflicts: &Conflicts,
) -> Result<Vec<(u32, u32)>, AllocError>
    requires exchanges { All (IsLawful (length claim.now.servers.items))
        (map X.shown exchanges.now) }
    requires few { length exchanges.now ≤ 1_000_000 }
    requires groups { (conflicts_data conflicts.now).groups ≡ length claim.now.groups.items }
    requires table { IsConflictTable (claim_data claim.now) (map X.shown exchanges.now)
        (conflicts_data conflicts.now).is_broken (conflicts_data conflicts.now).is_edge }
    ensures { IfOk result (λ pairs.
        NameAllConflicts (claim_data claim.now) (map X.shown exchanges.now) pairs.items) }
{
    let found = first_contradictions(alloc, exchanges, claim, conflicts)?;
    let mut pairs = Vec::new(alloc);
    for conflict in found.as_slice() {
        pairs.push(pair_of(conflict))?;
    }
    Ok(pairs)
}

/// A case for each cover, with the longest pieces, if they are few enough in all.
fn cases_of(
    alloc: Global,
    tables: &[Table],
    claim: &Claim,
    covers: &[Groups],
) -> Result<Option<Vec<Case>>, AllocError>
    requires { AreListed (length claim.now.groups.items) tables.now }
    ensures { IfOk result (λ made. (xs : List Exchange) →
        AreTablesOf (claim_data claim.now) xs tables.now →
        AreMadeOf (claim_data claim.now) xs covers.now made) }
{
    let mut cases = Vec::new(alloc);
    let mut left = MAX_PIECES;
    for out in covers {
        let (out, more) = (*out, 0);
        let search = Search {
            tables,
            claim,
            out,
            more,
        };
        let (pieces, stop) = search.longest_pieces(alloc, left)?;
        let Stop::End = stop else {
            return Ok(None);
        };
        left = left.saturating_sub(pieces.len());
        let groups = numbers_of(claim, out);
        cases.push(Case { groups, pieces })?;
    }
    Ok(Some(cases))
}

/// Whether a certificate has few enough of each.
fn is_few(certificate: &CoverCertificate) -> bool
    ensures { IsTrue result ↔ IsFew (certificate_data certificate.now) }
{
    let mut left = MAX_PIECES;
    for case in certificate.cases.as_slice() {
        if left < case.pieces.len() {
            return false;
        }
        left -= case.pieces.len();
    }
    certificate.conflicts.len() <= MAX_CONFLICTS && certificate.cases.len() <= MAX_CASES
}

/// The certificate, if the checker accepts it.
fn if_accepted<X: ToExchange>(
    exchanges: &[X],
    claim: &Claim,
    certificate: CoverCertificate,
) -> Option<CoverCertificate>
    requires exchanges { All (IsLawful (length claim.now.servers.items))
        (map X.shown exchanges.now) }
    ensures carried { IsCarriedIfFound (claim_data claim.now) (map X.shown exchanges.now) result }
    ensures found { IsCarriedBy (claim_data claim.now) (map X.shown exchanges.now)
        (certificate_data certificate) → IsSome result }
{
    if !is_few(&certificate) {
        return None;
    }
    match check_covers(exchanges, claim, &certificate) {
        CoverVerdict::Yes => Some(certificate),
        _ => None,
    }
}

/// What is found by covers.
#[derive(Drop)]
pub enum Found {
    /// A certificate, which the checker accepts.
    Certificate(CoverCertificate),
    /// A refutation with drift, which stands.
    Refutation(Refutation),
    /// Neither.
    Nothing,
}

/// The certificate that names all conflicts, and whose cases are these covers, if the checker
/// accepts it.
fn certificate_of<X: ToExchange>(
    alloc: Global,
    exchanges: &[X],
    claim: &Claim,
    conflicts: &Conflicts,
    covers: &[Groups],
    tables: &[Table],
) -> Result<Option<CoverCertificate>, AllocError>
    requires exchanges { All (IsLawful (length claim.now.servers.items))
        (map X.shown exchanges.now) }
    requires few { length exchanges.now ≤ 1_000_000 }
    requires groups { (conflicts_data conflicts.now).groups ≡ length claim.now.groups.items }
    requires table { IsConflictTable (claim_data claim.now) (map X.shown exchanges.now)
        (conflicts_data conflicts.now).is_broken (conflicts_data conflicts.now).is_edge }
    requires covers { AreLeastCovers (claim_data claim.now) (map X.shown exchanges.now) covers.now }
    requires tables { AreTablesOf (claim_data claim.now) (map X.shown exchanges.now) tables.now }
    requires listed { AreListed (length claim.now.groups.items) tables.now }
    ensures carried { IfOk result
        (IsCarriedIfFound (claim_data claim.now) (map X.shown exchanges.now)) }
    ensures none { IfOk result (λ found. IfNone found
        (IsNotMade (claim_data claim.now) (map X.shown exchanges.now) covers.now)) }
{
    let Some(cases) = cases_of(alloc, tables, claim, covers)? else {
        return Ok(None);
    };
    let conflicts = pairs_of(alloc, exchanges, claim, conflicts)?;
    Ok(if_accepted(exchanges, claim, CoverCertificate { conflicts, cases }))
}

/// The minimal covers of the conflicts: all of them, or 64.
fn covers_of<X: ToExchange>(
    exchanges: &[X],
    claim: &Claim,
    conflicts: &Conflicts,
) -> ArrayVec<Groups, 64>
    requires exchanges { All (IsLawful (length claim.now.servers.items))
        (map X.shown exchanges.now) }
    requires groups { (conflicts_data conflicts.now).groups ≡ length claim.now.groups.items }
    requires table { IsConflictTable (claim_data claim.now) (map X.shown exchanges.now)
        (conflicts_data conflicts.now).is_broken (conflicts_data conflicts.now).is_edge }
    ensures { AreLeastCovers (claim_data claim.now) (map X.shown exchanges.now) result.items }
{
    tables_settle_covers();
    conflicts.covers(claim.false_max)
}

/// Looks for a certificate by covers. It names all conflicts, its cases are the minimal covers, and
/// each case's pieces are as long as the bound allows. What is found is accepted. If there is none,
/// a refutation is looked for where the pieces of a case stop; what is found stands. Where a course
/// fits and neither is found, there is a reason.
///
/// There are at most 1,000,000 exchanges. The one error is that no memory is left.
pub fn find_by_covers<X: ToExchange>(
    alloc: Global,
    exchanges: &[X],
    claim: &Claim,
) -> Result<Found, AllocError>
    requires exchanges { All (IsLawful (length claim.now.servers.items))
        (map X.shown exchanges.now) }
    requires few { length exchanges.now ≤ 1_000_000 }
    ensures { IfOk result (Finds (claim_data claim.now) (map X.shown exchanges.now)) }
{
    what_a_case_leaves_unshown_is_nearly_off();
    let conflicts = conflicts_of(alloc, exchanges, claim)?;
    let covers = covers_of(exchanges, claim, &conflicts);
    let covers = covers.as_slice();
    let tables = tables_of(alloc, exchanges, claim)?;
    let tables = tables.as_slice();
    let carried = certificate_of(alloc, exchanges, claim, &conflicts, covers, tables)?;
    if let Some(certificate) = carried {
        return Ok(Found::Certificate(certificate));
    }
    match find_refutation(alloc, exchanges, claim, &conflicts, covers, tables)? {
        Some(refutation) => Ok(Found::Refutation(refutation)),
        None => Ok(Found::Nothing),
    }
}

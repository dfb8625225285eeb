//! The verdict on a certificate by covers.

ghost use Rattle.std.specs.Prelude.{length, map, All};
ghost use Rattle.cover_checker.specs.Common.{IsFew, IsLawful, claim_data, certificate_data};
ghost use Rattle.cover_checker.specs.Traceability.{IsVerdictOn};
ghost use Rattle.cover_checker.specs.Verdict.{IsVerdict};

use crate::case::first_bad_case;
use crate::conflict::{first_no_conflict, unanswered};
use crate::laws::verdicts_are_exact;
use crate::piece::first_bad_piece;
use checker::Why;
use claim_file::Claim;
use cover_certificate::CoverCertificate;
use intersection::laws::{every_list_has_a_hull, hull_is_one_answer};
use pairing::ToExchange;

/// What is wrong with the groups of a case.
#[derive(Clone, Copy, Debug, PartialEq, Eq)]
pub enum CaseWhy {
    /// More groups than may be false.
    TooManyGroups,
    /// A number isn't below the count of servers, as those of groups are.
    NoGroup,
    /// A group stands twice.
    RepeatedGroup,
    /// A case before it names the same groups.
    RepeatedCase,
}

/// Why a piece isn't accepted.
#[derive(Clone, Copy, Debug, PartialEq, Eq)]
pub enum PieceWhy {
    /// An entry is of a group that the case leaves out.
    LeftOut,
    /// For a reason that a piece of any certificate may have. `BadSample` says that an entry names
    /// an exchange that doesn't exist.
    Of(Why),
}

/// What a certificate by covers shows of a claim: the first test that fails, in the order of the
/// variants.
#[derive(Clone, Copy, Debug, PartialEq, Eq)]
pub enum CoverVerdict {
    /// The clock stayed within the bound, in every course of events that fits the exchanges.
    Yes,
    /// The conflict of this number names an exchange that doesn't exist, or two that may both be of
    /// true servers.
    NoConflict(u32),
    /// There is no case.
    NoCase,
    /// The case of this number names no groups that may be false.
    BadCase(u32, CaseWhy),
    /// Some groups, at most `false_max`, have an end of each conflict, and hold all groups of no
    /// case.
    Unanswered,
    /// Of the case with the first number, the piece with the second; of `Uncovered`, how many
    /// pieces there are.
    BadPiece(u32, u32, PieceWhy),
}

/// Whether the certificate shows that the error of the client's clock is within the claimed bound
/// at every reading of the claimed span. It takes no memory.
///
/// The tests come in this order: conflict by conflict `NoConflict`; `NoCase`; case by case
/// `BadCase`, with `TooManyGroups`, then group by group `NoGroup` and `RepeatedGroup`, then
/// `RepeatedCase`; `Unanswered`; case by case and piece by piece `BadPiece`: `Cut`, then entry by
/// entry `BadSample`, `MixedServers`, `RepeatedServer`, `LeftOut`, then `Unbounded`,
/// `Contradiction`, `Exceeds`; after a case's last piece `Uncovered`.
pub fn check_covers<X: ToExchange>(
    exchanges: &[X],
    claim: &Claim,
    certificate: &CoverCertificate,
) -> CoverVerdict
    requires exchanges { All (IsLawful (length claim.now.servers.items))
        (map X.shown exchanges.now) }
    requires few { IsFew (certificate_data certificate.now) }
    ensures { IsVerdictOn (claim_data claim.now) (map X.shown exchanges.now)
        (certificate_data certificate.now) result }
{
    verdicts_are_exact();
    first_failure(exchanges, claim, certificate)
}

/// The first test that fails.
fn first_failure<X: ToExchange>(
    exchanges: &[X],
    claim: &Claim,
    certificate: &CoverCertificate,
) -> CoverVerdict
    requires exchanges { All (IsLawful (length claim.now.servers.items))
        (map X.shown exchanges.now) }
    requires few { IsFew (certificate_data certificate.now) }
    ensures { IsVerdict (claim_data claim.now) (map X.shown exchanges.now)
        (certificate_data certificate.now) result }
{
    every_list_has_a_hull();
    hull_is_one_answer();
    let cases = certificate.cases.as_slice();
    if let Some(number) = first_no_conflict(exchanges, claim, certificate.conflicts.as_slice()) {
        return CoverVerdict::NoConflict(number);
    }
    if cases.is_empty() {
        return CoverVerdict::NoCase;
    }
    if let Some((case, why)) = first_bad_case(claim, cases) {
        return CoverVerdict::BadCase(case, why);
    }
    if let Some(_) = unanswered(exchanges, claim, certificate) {
        return CoverVerdict::Unanswered;
    }
    match first_bad_piece(exchanges, claim, cases) {
        Some((case, (piece, why))) => CoverVerdict::BadPiece(case, piece, why),
        None => CoverVerdict::Yes,
    }
}

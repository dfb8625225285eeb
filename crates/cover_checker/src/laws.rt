//! What holds of accepted certificates by covers, and why. A law is a function that does nothing:
//! its contract is the law, for every number.

ghost use Rattle.std.specs.Prelude.{◌≡◌, Bool, ℕ, ◌-◌, ◌<◌, ◌≤◌, ℤ, pos, ◌*ℤ◌, ◌≤ℤ◌, List, length, All};
ghost use Rattle.cover_checker.specs.Common.{ClaimData, Course, CoverCertificateData, Exchange, Fits, Hull, IsHull, IsInWindow, IsLawful, IsLawfulClaim, IsRate, IsRefutedWithDrift, KeepsHigh, KeepsLow, DriftsWithin, Mark, Moment, Part, RefutationData, Stretch, error_of, group_intervals, size_of};
ghost use Rattle.cover_checker.specs.Acceptance.{IsAccepted};
ghost use Rattle.cover_checker.specs.Admission.{BoundSpan};
ghost use Rattle.cover_checker.specs.Hull.{HasFalse, HoldsErrorOf, IsSaidBySome};
ghost use Rattle.cover_checker.specs.Interval.{low_over, high_over};
ghost use Rattle.cover_checker.specs.NamedFit.{FitsNamed};
ghost use Rattle.cover_checker.specs.Traceability.{IsNamed, IsTraceable, IsTraceableByCovers, IsVerdictOn};
ghost use Rattle.cover_checker.specs.Verdict.{IsVerdict};
ghost use Rattle.cover_checker.specs.declared.verdict.CoverVerdict.{CoverVerdict};

use era_unfold::laws::ratios_are_rounded_as_little_as_can_be;
use intersection::laws::{every_list_has_a_hull, hull_is_one_answer};

/// At a reading inside a stretch the error lies where the two marks of an exchange are moved to for
/// the stretch, if its moments keep them and the clock drifts within the rate.
#[tactic(auto, using(crate::proofs::Stretches::low_stays, crate::proofs::Stretches::high_stays))]
pub fn marks_hold_over_a_stretch()
    ensures low { (ppb n : ℕ) (stretch : Stretch) (mark : Mark) (kept observed : Moment) →
        IsRate ppb → DriftsWithin ppb kept observed → DriftsWithin ppb observed kept →
        IsInWindow n stretch.begin stretch.end observed.reading → KeepsLow n mark kept →
        (low_over ppb stretch mark *ℤ pos n) ≤ℤ error_of observed }
    ensures high { (ppb n : ℕ) (stretch : Stretch) (mark : Mark) (kept observed : Moment) →
        IsRate ppb → DriftsWithin ppb kept observed → DriftsWithin ppb observed kept →
        IsInWindow n stretch.begin stretch.end observed.reading → KeepsHigh n mark kept →
        error_of observed ≤ℤ (high_over ppb stretch mark *ℤ pos n) }
{
    ratios_are_rounded_as_little_as_can_be();
}

/// Where a certificate by covers is accepted, the error of the client's clock is within the claimed
/// bound at every moment whose reading lies in the claimed span, in every course of events that
/// fits the exchanges that it names.
///
/// Whatever groups hold false servers have an end of each conflict, so they hold all groups of some
/// case. The others that are wrong are as many fewer as that case has groups, and its pieces hold
/// every reading of the span.
pub fn covers_are_traceable()
    // Other servers may be false as they like, and the clock may be stepped elsewhere.
    ensures named { (claim : ClaimData) (xs : List Exchange) (certificate : CoverCertificateData) →
        IsLawfulClaim claim → All (IsLawful (length claim.servers)) xs →
        IsAccepted claim xs certificate → IsTraceableByCovers claim xs certificate }

    // A course that fits all exchanges fits those that are named.
    ensures all { (claim : ClaimData) (xs : List Exchange) (certificate : CoverCertificateData) →
        IsLawfulClaim claim → All (IsLawful (length claim.servers)) xs →
        IsAccepted claim xs certificate → IsTraceable claim xs }
{
    ratios_are_rounded_as_little_as_can_be();
}

/// Where some groups hold a false server each, the hull of what exchanges of the others say over a
/// stretch holds the error at every moment whose reading lies there, in every course of events that
/// fits. As many fewer of the others may hold one.
pub fn hulls_hold_the_error()
    ensures { (claim : ClaimData) (xs : List Exchange) (out : ℕ → Bool) (stretch : Stretch)
        (parts : List Part) (hull : Hull) → IsLawfulClaim claim →
        All (IsLawful (length claim.servers)) xs → All (IsSaidBySome claim xs out stretch) parts →
        IsHull (group_intervals claim.groups parts) (claim.false_max - size_of claim out) hull →
        HoldsErrorOf claim xs stretch (HasFalse claim out) hull }
{
    ratios_are_rounded_as_little_as_can_be();
}

/// At each reading of the span, whichever few groups are wrong, an accepted certificate bounds the
/// error by what the stamps say, in relations alone.
pub fn accepted_covers_bound_the_span()
    ensures { (claim : ClaimData) (xs : List Exchange) (certificate : CoverCertificateData) →
        IsRate claim.drift_ppb → IsAccepted claim xs certificate →
        BoundSpan claim xs certificate }
{
    ratios_are_rounded_as_little_as_can_be();
}

/// A course that fits all exchanges fits what a certificate names of them.
pub fn capture_fits_what_is_named()
    ensures { (claim : ClaimData) (xs : List Exchange) (certificate : CoverCertificateData)
        (course : Course) → IsRate claim.drift_ppb →
        All (λ x. x.server < length claim.groups) xs → Fits claim xs course →
        FitsNamed claim xs (IsNamed claim certificate course) course }
{}

/// For one list of exchanges and one claim no certificate by covers is accepted if a refutation is,
/// whether the clock drifts or not.
pub fn covers_and_refutation_never_meet()
    ensures { (claim : ClaimData) (xs : List Exchange) (certificate : CoverCertificateData)
        (refutation : RefutationData) → IsLawfulClaim claim →
        All (IsLawful (length claim.servers)) xs → IsAccepted claim xs certificate →
        ¬ (IsRefutedWithDrift claim xs refutation) }
{
    ratios_are_rounded_as_little_as_can_be();
}

/// What a verdict says: a certificate is accepted exactly if the verdict is yes.
pub fn verdicts_are_exact()
    ensures { (claim : ClaimData) (xs : List Exchange) (certificate : CoverCertificateData)
        (verdict : CoverVerdict) → IsLawfulClaim claim → All (IsLawful (length claim.servers)) xs →
        IsVerdict claim xs certificate verdict → IsVerdictOn claim xs certificate verdict }
{
    covers_are_traceable();
    every_list_has_a_hull();
    hull_is_one_answer();
}

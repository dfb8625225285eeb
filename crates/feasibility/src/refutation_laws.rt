//! What holds of refutations of which the clock may drift, and why.

ghost use Rattle.std.specs.Prelude.{◌≡◌, ◌↔◌, Bool, IsTrue, ℕ, ◌≤◌, ℤ, ◌≤ℤ◌, pos, List, [], length, All, AllPairs};
ghost use Rattle.feasibility.specs.Common.{CertificateData, RefutationData, Course, Fits, IsAgainst, IsRefuted, samples_of, IsObservedIn, IsWithin, verdict_of, refutation_with, Yes, ClaimData, IsLawful as IsLawfulExchange, SameRequest, Exchange, IsRate};
ghost use Rattle.claim_file.specs.Claim.{IsLawful};
ghost use Rattle.feasibility.specs.Cover.{SomeCourse};
ghost use Rattle.feasibility.specs.DriftRefutation.{IsRefutedWithDrift, IsObservedOff, Shows, IsRefutedByMarks, HasDriftCourse};
ghost use Rattle.feasibility.specs.DriftSettlement.{SettlesWithDrift};
ghost use Rattle.feasibility.specs.WorkedDrift.{both_exchanges, drifting_claim};

use checker::laws::{verdicts_are_traceable, worked_refutations_stand};

/// An accepted refutation has a course that fits the exchanges and the claim: just the servers that
/// it names are false, the exchanges of one request share its moment, the observed reading is the
/// refutation's, and the error there is its error.
#[tactic(auto, using(crate::proofs::DriftCourse::has_course))]
pub fn accepted_refutations_have_a_course()
    ensures { (claim : ClaimData) (xs : List Exchange) (refutation : RefutationData) →
        IsLawful claim → All (IsLawfulExchange (length claim.servers)) xs →
        AllPairs SameRequest xs → IsRefutedWithDrift claim xs refutation →
        HasDriftCourse claim xs refutation }
{}

/// The converse: a refutation whose own words are against the claim is accepted wherever a course
/// shows it, of any fineness. The course has no false server but those that are named, which
/// needn't all be false.
pub fn refutations_stand_where_a_course_shows_them()
    ensures { (claim : ClaimData) (xs : List Exchange) (refutation : RefutationData)
        (course : Course) → IsLawful claim → IsAgainst claim refutation →
        Shows claim xs refutation course → IsRefutedWithDrift claim xs refutation }
{}

/// So a refutation is accepted exactly if its own words are against the claim and some course shows
/// it.
pub fn refutations_are_exact()
    ensures { (claim : ClaimData) (xs : List Exchange) (refutation : RefutationData) →
        IsLawful claim → All (IsLawfulExchange (length claim.servers)) xs →
        IsRefutedWithDrift claim xs refutation ↔ (IsAgainst claim refutation
        × ((course : Course) × Shows claim xs refutation course)) }
{}

/// A course that shows a refutation breaks the claim: when the clock is observed, its reading lies
/// in the span and its error is beyond the bound.
#[tactic(auto, using(crate::proofs::DriftCourse::observed_course))]
pub fn courses_of_refutations_break_the_claim()
    ensures in_span { (claim : ClaimData) (refutation : RefutationData) (course : Course) →
        IsAgainst claim refutation → IsObservedOff refutation course →
        IsObservedIn course claim.first claim.last }
    ensures beyond_bound { (claim : ClaimData) (xs : List Exchange) (refutation : RefutationData)
        (course : Course) → IsAgainst claim refutation → Fits claim xs course →
        IsObservedOff refutation course → ¬ (IsWithin course claim.bound) }
{}

/// For one list of exchanges and one claim there is no certificate with a yes if there is an
/// accepted refutation.
pub fn yes_and_refutation_never_meet()
    ensures { (claim : ClaimData) (xs : List Exchange) (certificate : CertificateData)
        (refutation : RefutationData) → IsLawful claim →
        All (IsLawfulExchange (length claim.servers)) xs →
        verdict_of (samples_of xs claim) claim certificate ≡ Yes →
        ¬ (IsRefutedWithDrift claim xs refutation) }
{
    verdicts_are_traceable();
}

/// What stands without drift stands with it. If the claim grants no drift, nothing else stands.
pub fn refutations_without_drift_stand()
    ensures stand { (claim : ClaimData) (xs : List Exchange) (refutation : RefutationData) →
        IsRefuted claim xs refutation → IsRefutedWithDrift claim xs refutation }
    ensures no_others { (claim : ClaimData) (xs : List Exchange) (refutation : RefutationData) →
        claim.drift_ppb ≡ 0 → IsRefutedWithDrift claim xs refutation →
        IsRefuted claim xs refutation }
{}

/// A refutation's own mark counts as one of each kind: it is accepted exactly if, with its mark put
/// in among the low ones and among the high ones, each low mark is compatible with each high mark.
pub fn own_mark_joins_the_others()
    ensures { (claim : ClaimData) (xs : List Exchange) (refutation : RefutationData) →
        IsRefutedWithDrift claim xs refutation ↔ IsRefutedByMarks claim xs refutation }
{}

/// What refutes a claim refutes it with every narrower bound and with every faster drift.
pub fn narrower_bounds_and_faster_drifts_are_refuted_too()
    ensures { (claim : ClaimData) (narrower : ℤ) (faster : ℕ) (xs : List Exchange)
        (refutation : RefutationData) → narrower ≤ℤ claim.bound → claim.drift_ppb ≤ faster →
        IsRate faster → IsRefutedWithDrift claim xs refutation →
        IsRefutedWithDrift (record claim { bound = narrower; drift_ppb = faster }) xs refutation }
{}

/// An exact answer on a refutation says all of this.
pub fn refutations_are_settled()
    ensures { (claim : ClaimData) (xs : List Exchange) (refutation : RefutationData)
        (stands : Bool) → IsLawful claim → All (IsLawfulExchange (length claim.servers)) xs →
        (IsTrue stands ↔ IsRefutedWithDrift claim xs refutation) →
        SettlesWithDrift claim xs refutation stands }
{
    accepted_refutations_have_a_course();
    refutations_stand_where_a_course_shows_them();
    yes_and_refutation_never_meet();
}

/// Two exchanges an hour apart refute a claim that grants a drift of 100,000 parts in 10^9, though
/// no error that never changes does. With a drift of 10,000 parts no course fits them at all.
pub fn worked_drift_is_seen()
    ensures drifting { IsRefutedWithDrift (drifting_claim 100000) both_exchanges
        (refutation_with (pos 42953968) []) }
    ensures not_steady { (error : ℤ) →
        ¬ (IsRefuted (drifting_claim 100000) both_exchanges (refutation_with error [])) }
    ensures too_slow { ¬ (SomeCourse (drifting_claim 10000) both_exchanges) }
{
    worked_refutations_stand();
}

//! What holds of refutations, and why.

ghost use Rattle.std.specs.Prelude.{◌≡◌, ℕ, ◌+◌, ℤ, pos, neg_ℤ, ◌≤ℤ◌, ◌↔◌, true, List, [], ◌∷◌, length, All, AllPairs};
ghost use Rattle.checker.specs.Common.{CertificateData, RefutationData, ClaimData, IsLawful as IsLawfulExchange, SameRequest, Exchange, worked_second};
ghost use Rattle.claim_file.specs.Claim.{IsLawful};
ghost use Rattle.checker.specs.Course.{Course, Fits, FitsInWindows};
ghost use Rattle.checker.specs.Refutation.{IsAgainst, IsRefuted, IsCourseOf, ShowsThroughout, Admits, HasCourse, SomeCourseFits};
ghost use Rattle.checker.specs.RefutationTest.{admits, is_refuted};
ghost use Rattle.checker.specs.Traceability.{samples_of, IsObservedIn, IsWithin};
ghost use Rattle.checker.specs.Verdict.{verdict_of};
ghost use Rattle.checker.specs.WorkedCourse.{worked_exchange};
ghost use Rattle.checker.specs.WorkedRefutation.{Refutes, claim_with, refutation_with};
ghost use Rattle.checker.specs.declared.verdict.Verdict.TheVariants.{Yes};

use crate::laws::verdicts_are_traceable;

/// The test is passed exactly by the refutations that are accepted.
#[tactic(auto, using(crate::proofs::RefutationTests::refuted_by_test))]
pub fn test_is_passed_where_refuted()
    ensures { (claim : ClaimData) (xs : List Exchange) (refutation : RefutationData) →
        (is_refuted claim xs refutation ≡ true) ↔ IsRefuted claim xs refutation }
{}

/// The test on one exchange is passed exactly if it leaves room for the error.
#[tactic(auto, using(crate::proofs::RefutationTests::admitted_by_test))]
pub fn test_is_passed_where_room_is_left()
    ensures { (allowance error : ℤ) (x : Exchange) →
        (admits allowance error x ≡ true) ↔ Admits allowance error x }
{}

/// An accepted refutation has a course that fits the exchanges and the claim, with each reading in
/// its record's window: just the servers that it names are false, the exchanges of one request
/// share its moment, the observed reading is the refutation's, and the error is the refutation's at
/// every moment of the client.
pub fn accepted_refutations_have_a_course()
    ensures { (claim : ClaimData) (xs : List Exchange) (refutation : RefutationData) →
        IsLawful claim → All (IsLawfulExchange (length claim.servers)) xs →
        AllPairs SameRequest xs → IsRefuted claim xs refutation →
        HasCourse claim xs refutation }
{}

/// The converse: a refutation whose own words are against the claim is accepted if a course fits in
/// which no server is false but those that it names, all of them or some, and the error is its own
/// throughout.
pub fn refutations_with_a_course_are_accepted()
    ensures { (claim : ClaimData) (xs : List Exchange) (refutation : RefutationData)
        (course : Course) → IsAgainst claim refutation →
        ShowsThroughout claim xs refutation course → IsRefuted claim xs refutation }
{}

/// For one list of exchanges and one claim there is no certificate with a yes if there is an
/// accepted refutation.
pub fn yes_and_refutation_never_meet()
    ensures { (claim : ClaimData) (xs : List Exchange) (certificate : CertificateData)
        (refutation : RefutationData) → IsLawful claim →
        All (IsLawfulExchange (length claim.servers)) xs →
        verdict_of (samples_of xs claim) claim certificate ≡ Yes →
        ¬ (IsRefuted claim xs refutation) }
{
    verdicts_are_traceable();
}

/// Whether a course fits doesn't depend on the bound. So a refutation of the same claim with
/// another bound, as with none, shows that a course fits the claim itself with a reading of its
/// span, so that a yes for it says something.
pub fn courses_fit_whatever_the_bound()
    ensures fits { (claim : ClaimData) (bound : ℤ) (bound_ns : ℕ) (xs : List Exchange)
        (course : Course) →
        Fits (record claim { bound = bound; bound_ns = bound_ns }) xs course →
        Fits claim xs course }
    ensures in_windows { (claim : ClaimData) (bound : ℤ) (bound_ns : ℕ) (xs : List Exchange)
        (course : Course) →
        FitsInWindows (record claim { bound = bound; bound_ns = bound_ns }) xs course →
        FitsInWindows claim xs course }
    ensures some_course { (claim : ClaimData) (bound : ℤ) (bound_ns : ℕ) (xs : List Exchange)
        (refutation : RefutationData) → IsLawful claim →
        All (IsLawfulExchange (length claim.servers)) xs →
        IsRefuted (record claim { bound = bound; bound_ns = bound_ns }) xs refutation →
        SomeCourseFits claim xs }
{}

/// What refutes a claim refutes it with every narrower bound, and with every drift: the clock that
/// it speaks of doesn't drift at all.
#[tactic(auto, using(crate::proofs::RefutationCourse::refuted_with_less))]
pub fn narrower_bounds_are_refuted_too()
    ensures { (claim : ClaimData) (narrower : ℤ) (drift_ppb : ℕ) (xs : List Exchange)
        (refutation : RefutationData) → narrower ≤ℤ claim.bound →
        IsRefuted claim xs refutation →
        IsRefuted (record claim { bound = narrower; drift_ppb = drift_ppb }) xs refutation }
{}

/// A course that an accepted refutation stands for breaks the claim: when the clock is observed,
/// its reading lies in the span and its error is beyond the bound.
#[tactic(auto, using(crate::proofs::RefutationStamp::course_breaks_claim))]
pub fn courses_of_refutations_break_the_claim()
    ensures in_span { (claim : ClaimData) (xs : List Exchange) (refutation : RefutationData)
        (course : Course) → IsAgainst claim refutation → IsCourseOf claim xs refutation course →
        IsObservedIn course claim.first claim.last }
    ensures beyond_bound { (claim : ClaimData) (xs : List Exchange) (refutation : RefutationData)
        (course : Course) → IsAgainst claim refutation → IsCourseOf claim xs refutation course →
        ¬ (IsWithin course claim.bound) }
{}

/// The worked exchange refutes a claim by errors that it leaves room for and that are beyond the
/// bound, up to both ends of that room, and by any error if its server may be false, with the least
/// of 64 bits among them.
pub fn worked_refutations_stand()
    ensures beyond { Refutes (claim_with 42953967 0) (pos 42953968) [] }
    ensures greatest { Refutes (claim_with 42953967 0) (pos 42953969) [] }
    ensures least { Refutes (claim_with 42949673 0) (neg_ℤ (pos 42949674)) [] }
    ensures no_bound { Refutes (claim_with 0 0) (pos 1) [] }
    ensures named { Refutes (claim_with 42953972 1) (pos 42953973) (0 ∷ []) }
    ensures least_of_all { Refutes (claim_with 42953972 1) (neg_ℤ (pos 9223372036854775808))
        (0 ∷ []) }
{}

/// It refutes no claim by an error one tick outside that room, by one within the bound, at a
/// reading outside the span, or by servers that may not all be false, that are named twice or that
/// aren't listed; nor if its server says that it answered before it received.
pub fn other_worked_refutations_fall()
    ensures too_great { ¬ (Refutes (claim_with 42953967 0) (pos 42953970) []) }
    ensures too_small { ¬ (Refutes (claim_with 42949673 0) (neg_ℤ (pos 42949675)) []) }
    ensures within_bound { ¬ (Refutes (claim_with 42953967 0) (pos 42953967) []) }
    ensures outside_span { ¬ (IsRefuted (claim_with 42953967 0) (worked_exchange ∷ [])
        (record (refutation_with (pos 42953968) []) { reading = worked_second + 1 })) }
    ensures too_many_named { ¬ (Refutes (claim_with 42953972 0) (pos 42953973) (0 ∷ [])) }
    ensures named_twice { ¬ (Refutes (claim_with 42953972 1) (pos 42953973) (0 ∷ 0 ∷ [])) }
    ensures not_listed { ¬ (Refutes (claim_with 42953967 1) (pos 42953968) (1 ∷ [])) }
    ensures answered_before_received { ¬ (IsRefuted (claim_with 42953967 0)
        (record worked_exchange { t2 = pos (worked_second + 4337916969) } ∷ [])
        (refutation_with (pos 42953968) [])) }
{}

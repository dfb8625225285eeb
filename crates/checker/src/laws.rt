//! What holds of verdicts, and why. A law is a function that does nothing: its contract is the law,
//! for every number.
//!
//! The argument goes up the house: drift on the clock itself and the error at one exchange
//! (`sample_interval`), the error throughout a piece (`span_cover`), how many groups leave it out
//! (here), the hull of whole points that holds it (`intersection`), the pieces that hold every
//! reading of the span (here).

ghost use Rattle.std.specs.Prelude.{◌≡◌, ◌⊎◌, ◌↔◌, Bool, true, false, None, Some, Ok, ℕ, ◌+◌, ◌-◌, ◌<◌, ◌≤◌, ℤ, pos, neg_ℤ, ◌≤ℤ◌, List, [], ◌∷◌, length, All, slice_get};
ghost use Rattle.checker.specs.Common.{PieceData, CertificateData, ClaimData, ticks_down, Hull, Empty, HoldsFraction, IsAdmissibleFraction, IsCapture, exchanges_of, Exchange, Moment, IsInWindow, IsLawfulSample, Sample, group_intervals, piece_hull, worked_second, worked_claim, Part, Stretch};
ghost use Rattle.claim_file.specs.Claim.{IsLawful};
ghost use Rattle.checker.specs.Acceptance.{AreSaidBy, IsAccepted};
ghost use Rattle.checker.specs.BestParts.{best_parts};
ghost use Rattle.checker.specs.Comparison.{IsYesOr, IsContradiction, IsRefusedEntry, HasOneMoreEntry, HasEntriesSwapped, IsTakenApart, AreNarrower, IsOfSamples};
ghost use Rattle.checker.specs.Course.{Course, Fits, FitsInWindows};
ghost use Rattle.checker.specs.Groups.{false_group_count};
ghost use Rattle.checker.specs.PieceFit.{FitsPiece, HasFewFalse, OfEachEntry};
ghost use Rattle.checker.specs.Samples.{AreSamplesOf};
ghost use Rattle.checker.specs.Span.{IsSpanWithin, claim_within, certificate_within};
ghost use Rattle.checker.specs.Stretch.{begin_of, stretches_from, last_end, SomeHoldsReading};
ghost use Rattle.checker.specs.Traceability.{samples_of, HoldsError, HoldsErrorOfPiece, IsVerdictOn, IsWithin, IsWithinNanoseconds};
ghost use Rattle.checker.specs.Verdict.{parts_after, hull_fault, piece_fault, verdict_of, PassBelow};
ghost use Rattle.checker.specs.WorkedCapture.{worked_capture, worked_format, worked_records};
ghost use Rattle.checker.specs.WorkedCourse.{worked_exchange, worked_course, served_course, lone_course, slow_claim, slow_course, stamped_course, earlier_exchange, stepped_course};
ghost use Rattle.checker.specs.declared.verdict.Verdict.TheVariants.{Yes, No};
ghost use Rattle.checker.specs.declared.verdict.Why.{Why};

pub use crate::refutation_laws::{
    accepted_refutations_have_a_course, courses_fit_whatever_the_bound,
    courses_of_refutations_break_the_claim, narrower_bounds_are_refuted_too,
    other_worked_refutations_fall, refutations_with_a_course_are_accepted,
    test_is_passed_where_refuted, test_is_passed_where_room_is_left, worked_refutations_stand,
    yes_and_refutation_never_meet,
};
use era_unfold::laws::nanoseconds_lie_between_their_ticks;
use intersection::laws::{every_list_has_a_hull, hull_is_one_answer, whole_points_are_fine_enough};
use sample_interval::laws::{
    drift_shows_on_the_clock_itself, error_at_the_reply_is_no_more, error_at_the_request_is_no_less,
};
use span_cover::laws::{error_lies_in_the_interval_of_the_piece, piece_inside_another_is_narrower};

/// If the interval of each server that isn't false holds the error, at most as many groups leave it
/// out as hold a false server.
pub fn few_groups_leave_the_error_out()
    ensures { (groups : List ℕ) (parts : List Part) (is_false : ℕ → Bool) (e : ℤ) (n f : ℕ) →
        All (λ part. part.server < length groups) parts →
        All (λ part. is_false part.server ≡ false → HoldsFraction part.interval e n) parts →
        false_group_count groups is_false ≤ f →
        IsAdmissibleFraction (group_intervals groups parts) f e n }
{}

/// Pieces that share their ends hold every reading of the span, fractions of a tick too.
#[tactic(auto, using(crate::proofs::Cover::all_covered))]
pub fn pieces_hold_every_reading()
    ensures { (n : ℕ) (reading begin : ℤ) (pieces : List PieceData) → 0 < length pieces →
        IsInWindow n begin (last_end begin pieces) reading →
        SomeHoldsReading (stretches_from begin pieces) n reading }
{}

/// That few are false may be shown by a count: each false server that has an entry counts, and at
/// most `false_max` groups hold a server that counts.
pub fn few_are_false_by_count()
    ensures { (claim : ClaimData) (xs : List Exchange) (entries : List (ℕ × ℕ)) (course : Course)
        (counts : ℕ → Bool) → false_group_count claim.groups counts ≤ claim.false_max →
        OfEachEntry xs entries (λ a x b y. course.is_false x.server ≡ true →
        counts x.server ≡ true) → HasFewFalse claim xs entries course }
{}

/// A course that fits the exchanges of a capture fits what any entries name of them.
pub fn capture_fits_each_piece()
    ensures { (claim : ClaimData) (xs : List Exchange) (entries : List (ℕ × ℕ))
        (course : Course) → Fits claim xs course → FitsPiece claim xs entries course }
{}

/// In every course that fits, the error of the client's clock lies in the hull of a piece at every
/// moment whose reading lies there, whether the hull is inside a bound or not. An unbounded hull
/// says nothing, and an empty one that no course that fits has such a moment.
#[tactic(auto, using(crate::proofs::Hull::piece_holds, crate::proofs::Hull::capture_holds))]
pub fn hulls_hold_the_error()
    // The hull of what entries say, in every course that fits what they name.
    ensures piece { (claim : ClaimData) (samples : List Sample) (stretch : Stretch)
        (entries : List (ℕ × ℕ)) (parts : List Part) → IsLawful claim →
        AreSamplesOf claim samples →
        AreSaidBy samples stretch claim.drift_ppb entries parts →
        HoldsErrorOfPiece claim samples entries stretch
        (piece_hull claim.groups claim.false_max parts) }

    // The hull of whatever parts samples give, in every course that fits the capture.
    ensures capture { (claim : ClaimData) (samples : List Sample) (stretch : Stretch)
        (parts : List Part) → IsLawful claim → AreSamplesOf claim samples →
        All (IsOfSamples samples stretch claim.drift_ppb) parts →
        HoldsError claim samples stretch (piece_hull claim.groups claim.false_max parts) }

    // That of what each server says by its best samples.
    ensures best { (claim : ClaimData) (samples : List Sample) (stretch : Stretch) →
        IsLawful claim → AreSamplesOf claim samples →
        HoldsError claim samples stretch
        (piece_hull claim.groups claim.false_max (best_parts claim samples stretch)) }
{
    drift_shows_on_the_clock_itself();
    error_at_the_request_is_no_less();
    error_at_the_reply_is_no_more();
    error_lies_in_the_interval_of_the_piece();
    whole_points_are_fine_enough();
    every_list_has_a_hull();
}

/// If the verdict is yes, the error of the client's clock is within the claimed bound at every
/// moment whose reading lies in the claimed span, in every course of events that fits exchanges
/// with these samples: with any delays that aren't negative, any drift within the claimed rate, and
/// at most the claimed number of groups that hold a false server. If a piece contradicts itself,
/// no such course has a reading there.
///
/// Piece by piece a course has to fit no more than what the entries of a piece name, so that other
/// servers may be false in each.
pub fn verdicts_are_traceable()
    ensures { (claim : ClaimData) (samples : List Sample) (certificate : CertificateData) →
        IsLawful claim → AreSamplesOf claim samples →
        IsVerdictOn claim samples certificate (verdict_of samples claim certificate) }
{
    capture_fits_each_piece();
    hulls_hold_the_error();
}

/// What is within a bound in ticks, which is a number of nanoseconds rounded down, is within that
/// number of nanoseconds.
#[tactic(auto, using(crate::proofs::Traceability::in_nanoseconds))]
pub fn bounds_hold_in_nanoseconds()
    ensures { (course : Course) (bound : ℤ) (bound_ns : ℕ) → bound ≡ pos (ticks_down bound_ns) →
        IsWithin course bound → IsWithinNanoseconds course bound_ns }
{
    nanoseconds_lie_between_their_ticks();
}

/// The verdict is yes exactly if the certificate is accepted: its pieces share their ends and
/// are the span, each names samples of one server in an entry and no server twice, and each hull
/// lies inside the bound.
#[tactic(auto, using(crate::proofs::Acceptance::acceptance))]
pub fn yes_is_acceptance()
    ensures { (samples : List Sample) (claim : ClaimData) (certificate : CertificateData) →
        (verdict_of samples claim certificate ≡ Yes) ↔ IsAccepted samples claim certificate }
{
    pieces_give_the_verdict();
    every_list_has_a_hull();
    hull_is_one_answer();
}

/// Courses that fit do exist: one server's exchange, of which the capture says that the
/// clock's error was from -42,949,674 to 42,953,969 ticks, fits a course with no error at all, one
/// with an error of 42,953,968 ticks, and, if the server's clock is off by the tick that it
/// announces, one with each of these two errors. So neither end could be narrower. And a clock that
/// drifts by half keeps a drift of half, which is counted by true time and not by what it shows.
#[tactic(auto, using(crate::proofs::Course::worked_fits, crate::proofs::Course::slow_fits))]
pub fn worked_courses_fit()
    ensures exact { FitsInWindows worked_claim (worked_exchange ∷ [])
        (worked_course (pos 0) (pos (worked_second + 85899345))) }
    ensures far { FitsInWindows worked_claim (worked_exchange ∷ [])
        (worked_course (pos 42953968) (pos (worked_second + 85903641))) }
    ensures greatest { FitsInWindows worked_claim (worked_exchange ∷ [])
        (served_course (pos 42953969) (pos (worked_second + 85903641))
        (pos (worked_second + 42949672))) }
    ensures slow { FitsInWindows slow_claim (worked_exchange ∷ []) slow_course }
    ensures least { FitsInWindows worked_claim (worked_exchange ∷ [])
        (served_course (neg_ℤ (pos 42949674)) (pos (worked_second + 85899345))
        (pos (worked_second + 42949674))) }
{}

/// A stamp may be early at a request and late at a reply: a course fits in which the one left 5 ms
/// after its stamp and the other arrived 6 ms before its own, though neither reading lies in the
/// window of its record. The other side of each counts. No course fits what an entry names if the
/// request left a tick before its stamp, or if the reply arrived a tick after. Were a tick allowed,
/// one would fit, with an error a tick beyond what the exchange leaves room for.
#[tactic(auto, using(crate::proofs::Course::stamped_clock))]
pub fn stamps_err_on_one_side()
    ensures early_and_late { Fits worked_claim (worked_exchange ∷ [])
        (stamped_course (pos 0) (pos (worked_second + 21474836)) (pos (worked_second + 60129542))
        (pos (worked_second + 42949673))) }
    ensures out_of_windows { ¬ (FitsInWindows worked_claim (worked_exchange ∷ [])
        (stamped_course (pos 0) (pos (worked_second + 21474836)) (pos (worked_second + 60129542))
        (pos (worked_second + 42949673)))) }
    ensures late_at_request { (error reply served : ℤ) →
        ¬ (FitsPiece worked_claim (worked_exchange ∷ []) ((0, 0) ∷ [])
        (stamped_course error (pos (worked_second - 1)) reply served)) }
    ensures early_at_reply { (error request served : ℤ) →
        ¬ (FitsPiece worked_claim (worked_exchange ∷ []) ((0, 0) ∷ [])
        (stamped_course error request (pos (worked_second + 85903642)) served)) }
    ensures tick_at_request { Fits (record worked_claim { reading = pos 1 })
        (worked_exchange ∷ []) (stamped_course (neg_ℤ (pos 42949675)) (pos (worked_second - 1))
        (pos (worked_second + 85899345)) (pos (worked_second + 42949674))) }
    ensures tick_at_reply { Fits (record worked_claim { reading = pos 1 })
        (worked_exchange ∷ []) (stamped_course (pos 42953970) (pos worked_second)
        (pos (worked_second + 85903642)) (pos (worked_second + 42949672))) }
{}

/// A step of the clock before the exchanges that a piece names doesn't affect the piece: the
/// course of a clock that was stepped fits what an entry names of the exchange after the step, and
/// doesn't fit the two exchanges.
#[tactic(auto, using(crate::proofs::Course::stepped_clock))]
pub fn step_before_a_piece_is_no_matter()
    ensures piece { FitsPiece worked_claim (earlier_exchange ∷ worked_exchange ∷ [])
        ((1, 1) ∷ []) stepped_course }
    ensures capture { ¬ (Fits worked_claim (earlier_exchange ∷ worked_exchange ∷ [])
        stepped_course) }
{}

/// The exchange of the worked courses is what a capture of two packets gives under their claim: the
/// bytes are a capture of two records, and these have that one exchange.
#[tactic(auto, using(crate::proofs::WorkedExchange::is_captured))]
pub fn worked_exchange_is_captured()
    ensures capture { IsCapture worked_capture worked_format worked_records }
    ensures exchange { exchanges_of worked_claim worked_records ≡ worked_exchange ∷ [] }
{}

/// Without exchanges the clock may be off by anything, so that no certificate is accepted.
pub fn nothing_is_known_without_exchanges()
    ensures any_error { (claim : ClaimData) (n : ℕ) (observation : Moment) → 0 < n →
        FitsInWindows claim [] (lone_course n observation) }
    ensures refused { (claim : ClaimData) (certificate : CertificateData) → IsLawful claim →
        ¬ (verdict_of [] claim certificate ≡ Yes) }
{
    verdicts_are_traceable();
}

/// Yes for a bound is yes for every wider bound.
#[tactic(auto, using(crate::proofs::Comparison::wider_bound))]
pub fn wider_bounds_hold_too()
    ensures { (samples : List Sample) (claim : ClaimData) (wider : ℤ)
        (certificate : CertificateData) → claim.bound ≤ℤ wider →
        verdict_of samples claim certificate ≡ Yes →
        verdict_of samples (record claim { bound = wider }) certificate ≡ Yes }
{}

/// If fewer groups may be false, a yes stays yes or becomes a contradiction: the bound is no
/// wider.
#[tactic(auto, using(crate::proofs::Comparison::fewer_false))]
pub fn fewer_false_groups_narrow()
    ensures { (samples : List Sample) (claim : ClaimData) (fewer : ℕ)
        (certificate : CertificateData) → fewer ≤ claim.false_max →
        verdict_of samples claim certificate ≡ Yes →
        IsYesOr IsContradiction
        (verdict_of samples (record claim { false_max = fewer }) certificate) }
{
    every_list_has_a_hull();
}

/// One more entry in a piece, unless it is refused by itself, leaves a yes as it is or makes it a
/// contradiction. So an auditor who distrusts a piece may add entries without fear of a wider
/// bound.
pub fn more_entries_narrow()
    ensures { (samples : List Sample) (claim : ClaimData) (certificate more : CertificateData) →
        HasOneMoreEntry certificate more → verdict_of samples claim certificate ≡ Yes →
        IsYesOr (λ why. IsContradiction why ⊎ IsRefusedEntry why)
        (verdict_of samples claim more) }
{
    every_list_has_a_hull();
}

/// Two neighbouring entries of a piece may change places, and so its entries may stand in any
/// order.
pub fn order_of_entries_changes_no_yes()
    ensures { (samples : List Sample) (claim : ClaimData) (certificate swapped : CertificateData) →
        HasEntriesSwapped certificate swapped → verdict_of samples claim certificate ≡ Yes →
        verdict_of samples claim swapped ≡ Yes }
{}

/// If groups are taken apart, a yes stays yes or becomes a contradiction: what one group says about
/// a piece is the points that all its servers leave, and apart each of them counts by itself. So
/// whoever doubts that servers depend on one reference may count them one by one without fear of a
/// wider bound.
#[tactic(auto, using(crate::proofs::Separation::verdict_apart))]
pub fn groups_taken_apart_narrow()
    ensures { (samples : List Sample) (claim : ClaimData) (finer : List ℕ)
        (certificate : CertificateData) →
        All (λ sample. sample.server < length claim.groups) samples →
        IsTakenApart claim.groups finer → verdict_of samples claim certificate ≡ Yes →
        IsYesOr IsContradiction
        (verdict_of samples (record claim { groups = finer }) certificate) }
{
    every_list_has_a_hull();
}

/// If a certificate gives yes for the claim's span, then cut to a span inside that one it gives yes
/// too, or shows a contradiction: a shorter piece has narrower intervals.
#[tactic(auto, using(crate::proofs::Span::verdict_within))]
pub fn spans_inside_narrow()
    ensures { (samples : List Sample) (claim : ClaimData) (certificate : CertificateData)
        (first last : ℕ) → IsLawful claim → All IsLawfulSample samples →
        IsSpanWithin claim first last → verdict_of samples claim certificate ≡ Yes →
        IsYesOr IsContradiction (verdict_of samples (claim_within claim first last)
        (certificate_within certificate first last)) }
{
    piece_inside_another_is_narrower();
    every_list_has_a_hull();
}

/// What the entries of a piece say, if none is refused, is said by samples.
#[tactic(auto, using(crate::proofs::Narrow::of_samples))]
pub fn parts_are_of_samples()
    ensures { (samples : List Sample) (stretch : Stretch) (ppb : ℕ) (entries : List (ℕ × ℕ))
        (parts : List Part) → parts_after samples stretch ppb [] entries ≡ Ok parts →
        All (IsOfSamples samples stretch ppb) parts }
{}

/// If the hull over some parts lies in a bound, and each of them has a narrower one among other
/// parts, the hull over these is empty or lies in the bound too.
#[tactic(auto, using(crate::proofs::Narrow::empty_or_inside))]
pub fn narrower_parts_narrow()
    ensures { (groups : List ℕ) (false_max : ℕ) (bound : ℤ) (parts next : List Part) →
        AreNarrower parts next → hull_fault bound (piece_hull groups false_max parts) ≡ None →
        (hull_fault bound (piece_hull groups false_max next) ≡ None)
        ⊎ (piece_hull groups false_max next ≡ Empty) }
{
    every_list_has_a_hull();
}

/// The verdict goes by the pieces: it is yes exactly if there is one, the last ends with the
/// span and none fails a test; and no for the first that fails one.
pub fn pieces_give_the_verdict()
    ensures yes { (samples : List Sample) (claim : ClaimData) (certificate : CertificateData) →
        0 < length certificate.pieces → last_end claim.first certificate.pieces ≡ claim.last →
        PassBelow samples claim certificate (length certificate.pieces) →
        verdict_of samples claim certificate ≡ Yes }
    ensures each { (samples : List Sample) (claim : ClaimData) (certificate : CertificateData) →
        verdict_of samples claim certificate ≡ Yes →
        PassBelow samples claim certificate (length certificate.pieces) }
    ensures covers { (samples : List Sample) (claim : ClaimData) (certificate : CertificateData) →
        verdict_of samples claim certificate ≡ Yes → (0 < length certificate.pieces)
        × (last_end claim.first certificate.pieces ≡ claim.last) }
    ensures no { (samples : List Sample) (claim : ClaimData) (certificate : CertificateData)
        (k : ℕ) (piece : PieceData) (why : Why) →
        slice_get certificate.pieces k ≡ Some piece → PassBelow samples claim certificate k →
        piece_fault samples claim (begin_of claim.first certificate.pieces k) piece ≡ Some why →
        verdict_of samples claim certificate ≡ No k why }
{}

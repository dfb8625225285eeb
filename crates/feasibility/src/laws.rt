//! What courses of events can do, and why. A law is a function that does nothing: its contract is
//! the law, for every number.
//!
//! The argument goes both ways. Each course that fits keeps the marks of its true exchanges, and
//! marks that one course keeps are compatible in pairs. Where they are compatible in pairs, the
//! lowest course keeps them all and fits.

ghost use Rattle.std.specs.Prelude.{◌≡◌, ◌↔◌, Bool, false, IsTrue, Some, ℕ, ◌+◌, ◌-◌, ◌*◌, ◌<◌, ◌≤◌, ℤ, pos, ◌+ℤ◌, ◌-ℤ◌, ◌*ℤ◌, ◌≤ℤ◌, List, length, slice_get, slice_index, All, AllPairs};
ghost use Rattle.feasibility.specs.Common.{ClaimData, Course, Fits, FitsInWindows, holds_false, false_group_count, SharesRequests, low_mark, high_mark, IsPossible, AreCompatible, Mark, IsLawful as IsLawfulExchange, SameRequest, Exchange, Moment, error_of, DriftsWithin, billion, IsRate};
ghost use Rattle.claim_file.specs.Claim.{IsLawful};
ghost use Rattle.feasibility.specs.ConflictTable.{IsConflictTable, HasSmallTableCover};
ghost use Rattle.feasibility.specs.Conflicts.{ConflictData, IsCover as IsCoverBy};
ghost use Rattle.feasibility.specs.Cover.{IsCover, size_of, HasSmallCover, SomeCourse, SomeCourseAt};
ghost use Rattle.feasibility.specs.DriftSettlement.{SettlesFit};
ghost use Rattle.feasibility.specs.Keeping.{KeepsLow, KeepsHigh};
ghost use Rattle.feasibility.specs.LowestCourse.{fineness_of, most_rise, most_fall, lowest_error, lowest_moment, lowest_course};
ghost use Rattle.feasibility.specs.Stamps.{IsObservable};
ghost use Rattle.feasibility.specs.TrueMarks.{high_marks, DoAgree, FitsWithFalse};

pub use crate::conflict_laws::{
    ends_of_all_conflicts_are_a_cover, first_contradiction_is_one,
    marks_of_groups_decide_conflicts, pairs_show_conflicts, tests_of_marks_make_a_table,
};
pub use crate::refutation_laws::{
    accepted_refutations_have_a_course, courses_of_refutations_break_the_claim,
    narrower_bounds_and_faster_drifts_are_refuted_too, own_mark_joins_the_others,
    refutations_are_exact, refutations_are_settled, refutations_stand_where_a_course_shows_them,
    refutations_without_drift_stand, worked_drift_is_seen, yes_and_refutation_never_meet,
};
pub use crate::served_laws::{few_groups_are_no_evidence, no_evidence_gives_no_yes};

/// Of what the clock itself advances, the error rises by at most P/(B+P) and falls by at most
/// P/(B-P), with P for the rate of the drift in parts of B.
#[tactic(auto, using(crate::proofs::KeptMarks::error_rises, crate::proofs::KeptMarks::error_falls))]
pub fn error_changes_by_what_the_clock_advances()
    ensures rises { (ppb : ℕ) (a b : Moment) → ppb < billion → DriftsWithin ppb a b →
        a.reading ≤ℤ b.reading → (pos (billion + ppb) *ℤ (error_of b -ℤ error_of a))
        ≤ℤ (pos ppb *ℤ (b.reading -ℤ a.reading)) }
    ensures falls { (ppb : ℕ) (a b : Moment) → ppb < billion → DriftsWithin ppb a b →
        a.reading ≤ℤ b.reading → (pos (billion - ppb) *ℤ (error_of a -ℤ error_of b))
        ≤ℤ (pos ppb *ℤ (b.reading -ℤ a.reading)) }
{}

/// Readings are in the order of true times, and true times in the order of readings.
#[tactic(auto, using(crate::proofs::KeptMarks::in_order))]
pub fn readings_are_in_the_order_of_times()
    ensures readings { (ppb : ℕ) (a b : Moment) → ppb < billion → DriftsWithin ppb a b →
        a.time ≤ℤ b.time → a.reading ≤ℤ b.reading }
    ensures times { (ppb : ℕ) (a b : Moment) → ppb < billion → DriftsWithin ppb a b →
        a.reading ≤ℤ b.reading → a.time ≤ℤ b.time }
{}

/// An exchange with a server that isn't false is possible by itself. Its request keeps its low mark
/// and its reply its high mark, however far after its stamp the one left, and before its own the
/// other arrived.
pub fn true_exchanges_keep_their_marks()
    ensures possible { (claim : ClaimData) (xs : List Exchange) (course : Course) (k : ℕ)
        (x : Exchange) → IsLawful claim → Fits claim xs course → slice_get xs k ≡ Some x →
        course.is_false x.server ≡ false → IsPossible claim.reading x }
    ensures low { (claim : ClaimData) (xs : List Exchange) (course : Course) (k : ℕ)
        (x : Exchange) → Fits claim xs course → slice_get xs k ≡ Some x →
        course.is_false x.server ≡ false →
        KeepsLow course.fineness (low_mark claim.reading x) (course.request k) }
    ensures high { (claim : ClaimData) (xs : List Exchange) (course : Course) (k : ℕ)
        (x : Exchange) → Fits claim xs course → slice_get xs k ≡ Some x →
        course.is_false x.server ≡ false →
        KeepsHigh course.fineness (high_mark claim.reading x) (course.reply k) }
{}

/// A mark that some moment keeps holds at its place: when the clock reads a low mark's place, the
/// error is no less than the mark's, and when it reads a high mark's place, no more. So the far
/// ends of the windows lose nothing.
#[tactic(auto, using(crate::proofs::KeptMarks::low_holds, crate::proofs::KeptMarks::high_holds))]
pub fn marks_hold_at_their_places()
    ensures low { (ppb n : ℕ) (mark : Mark) (kept at_place : Moment) → ppb < billion →
        DriftsWithin ppb kept at_place → at_place.reading ≡ mark.place *ℤ pos n →
        KeepsLow n mark kept → (mark.error *ℤ pos n) ≤ℤ error_of at_place }
    ensures high { (ppb n : ℕ) (mark : Mark) (kept at_place : Moment) → ppb < billion →
        DriftsWithin ppb kept at_place → at_place.reading ≡ mark.place *ℤ pos n →
        KeepsHigh n mark kept → error_of at_place ≤ℤ (mark.error *ℤ pos n) }
{}

/// A moment at which the clock shows a mark's place, with the mark's error, keeps the mark as a low
/// one and as a high one.
pub fn observed_errors_are_marks()
    ensures low { (n : ℕ) (mark : Mark) (moment : Moment) →
        moment.reading ≡ mark.place *ℤ pos n → error_of moment ≡ mark.error *ℤ pos n →
        KeepsLow n mark moment }
    ensures high { (n : ℕ) (mark : Mark) (moment : Moment) →
        moment.reading ≡ mark.place *ℤ pos n → error_of moment ≡ mark.error *ℤ pos n →
        KeepsHigh n mark moment }
{}

/// A low mark and a high mark that two moments of one clock keep are compatible. So no course keeps
/// two marks that aren't.
pub fn kept_marks_are_compatible()
    ensures { (ppb n : ℕ) (low high : Mark) (a b : Moment) → 0 < n → IsRate ppb →
        DriftsWithin ppb a b → KeepsLow n low a → KeepsHigh n high b →
        AreCompatible ppb low high }
{}

/// The lowest error rises and falls no faster than it may, and so it drifts within the rate. True
/// time goes on with the readings.
pub fn lowest_error_changes_as_it_may()
    ensures rises { (ppb : ℕ) (first : Mark) (others : List Mark) (c : ℤ) (d : ℕ) → IsRate ppb →
        lowest_error ppb first others (c +ℤ pos d)
        ≤ℤ (lowest_error ppb first others c +ℤ pos (most_rise ppb * d)) }
    ensures falls { (ppb : ℕ) (first : Mark) (others : List Mark) (c : ℤ) (d : ℕ) → IsRate ppb →
        lowest_error ppb first others c
        ≤ℤ (lowest_error ppb first others (c +ℤ pos d) +ℤ pos (most_fall ppb * d)) }
    ensures drifts { (ppb : ℕ) (first : Mark) (others : List Mark) (c d : ℤ) → IsRate ppb →
        DriftsWithin ppb (lowest_moment ppb first others c) (lowest_moment ppb first others d) }
    ensures goes_on { (ppb : ℕ) (first : Mark) (others : List Mark) (c d : ℤ) → IsRate ppb →
        c ≤ℤ d →
        (lowest_moment ppb first others c).time ≤ℤ (lowest_moment ppb first others d).time }
{}

/// The lowest course keeps each low mark that it is made of, and each high mark with which all of
/// these are compatible. So if its first mark is such a high mark too, it meets it.
pub fn lowest_course_keeps_every_mark()
    ensures first { (ppb : ℕ) (first : Mark) (others : List Mark) →
        KeepsLow (fineness_of ppb) first (lowest_moment ppb first others first.place) }
    ensures others { (ppb : ℕ) (first : Mark) (others : List Mark) →
        All (λ low. KeepsLow (fineness_of ppb) low (lowest_moment ppb first others low.place))
        others }
    ensures high { (ppb : ℕ) (first : Mark) (others : List Mark) (high : Mark) →
        AreCompatible ppb first high → All (λ low. AreCompatible ppb low high) others →
        KeepsHigh (fineness_of ppb) high (lowest_moment ppb first others high.place) }
    ensures met { (ppb : ℕ) (first : Mark) (others : List Mark) →
        All (λ low. AreCompatible ppb low first) others →
        error_of (lowest_moment ppb first others first.place)
        ≡ first.error *ℤ pos (fineness_of ppb) }
{}

/// The lowest course fits, with each reading in its record's window: where nothing contradicts with
/// these servers false, and with any first mark that is compatible with the high marks. The
/// exchanges of one request share its moment.
pub fn lowest_course_fits()
    ensures fits { (claim : ClaimData) (is_false : ℕ → Bool) (first : Mark) (reading : ℤ)
        (xs : List Exchange) → IsLawful claim →
        All (IsLawfulExchange (length claim.servers)) xs → DoAgree claim is_false xs →
        All (AreCompatible claim.drift_ppb first) (high_marks claim.reading is_false xs) →
        false_group_count claim.groups is_false ≤ claim.false_max →
        FitsInWindows claim xs (lowest_course claim is_false first reading xs) }
    ensures shares { (claim : ClaimData) (is_false : ℕ → Bool) (first : Mark) (reading : ℤ)
        (xs : List Exchange) → AllPairs SameRequest xs →
        SharesRequests xs (lowest_course claim is_false first reading xs) }
{}

/// Pairs are enough: a course fits in which no server is false but these exactly if each exchange
/// with another server is possible by itself, and each low mark of these is compatible with each
/// high mark.
pub fn pairs_are_enough()
    ensures { (claim : ClaimData) (is_false : ℕ → Bool) (xs : List Exchange) → IsLawful claim →
        All (IsLawfulExchange (length claim.servers)) xs →
        false_group_count claim.groups is_false ≤ claim.false_max →
        FitsWithFalse claim is_false xs ↔ DoAgree claim is_false xs }
{}

/// Stamps that are early at requests or late at replies change nothing that can be observed: with
/// the same servers false, a clock is off by an error at a reading in some course that fits exactly
/// if it is in some course that fits and has each reading in its record's window. So what is shown
/// of all courses of the wider sense is no weaker than what is shown of those of the narrower.
#[tactic(auto, using(crate::proofs::Stamps::to_windows, crate::proofs::Stamps::from_windows))]
pub fn early_and_late_stamps_change_nothing()
    ensures { (claim : ClaimData) (xs : List Exchange) (is_false : ℕ → Bool)
        (reading error : ℤ) → IsLawful claim → All (IsLawfulExchange (length claim.servers)) xs →
        IsObservable (Fits claim xs) is_false reading error
        ↔ IsObservable (FitsInWindows claim xs) is_false reading error }
{}

/// What the false groups of a course are is a cover: a group that has an impossible exchange or
/// contradicts itself holds a false server, and so does one of two groups that contradict each
/// other.
#[tactic(auto, using(crate::proofs::Covers::covering_groups))]
pub fn false_groups_are_a_cover()
    ensures { (claim : ClaimData) (xs : List Exchange) (course : Course) → IsLawful claim →
        All (IsLawfulExchange (length claim.servers)) xs → Fits claim xs course →
        IsCover claim xs (holds_false claim.groups course.is_false) }
{}

/// With every server of a cover's groups false, nothing contradicts, and no more groups hold a
/// false server than the cover has. With those of other groups false, something does.
pub fn covers_leave_agreement()
    ensures agree { (claim : ClaimData) (xs : List Exchange) (is_in : ℕ → Bool) →
        IsCover claim xs is_in →
        DoAgree claim (λ server. is_in (slice_index claim.groups server)) xs }
    ensures few { (claim : ClaimData) (is_in : ℕ → Bool) →
        false_group_count claim.groups (λ server. is_in (slice_index claim.groups server))
        ≤ size_of claim is_in }
    ensures needed { (claim : ClaimData) (xs : List Exchange) (is_in : ℕ → Bool) →
        DoAgree claim (λ server. is_in (slice_index claim.groups server)) xs →
        IsCover claim xs is_in }
{}

/// A course fits the exchanges and the claim exactly if some cover has no more groups than may be
/// false.
#[tactic(auto, using(crate::proofs::Covers::course_by_cover))]
pub fn some_course_fits_where_a_cover_is_small()
    ensures { (claim : ClaimData) (xs : List Exchange) → IsLawful claim →
        All (IsLawfulExchange (length claim.servers)) xs →
        SomeCourse claim xs ↔ HasSmallCover claim xs }
{}

/// If some course fits, then at every reading one is observed that fits, with each reading in its
/// record's window: a whole number of ticks that the clock shows. The exchanges of one request
/// share its moment.
#[tactic(auto, using(crate::proofs::Covers::course_by_cover_at))]
pub fn some_course_is_observed_at_any_reading()
    ensures { (claim : ClaimData) (xs : List Exchange) (reading : ℤ) → IsLawful claim →
        All (IsLawfulExchange (length claim.servers)) xs → SomeCourse claim xs →
        SomeCourseAt claim xs reading }
{}

/// A table of broken groups and conflicts has a small cover exactly if the exchanges have one: its
/// covers are theirs. So a search in the table settles whether a course fits.
pub fn tables_settle_covers()
    ensures small { (claim : ClaimData) (xs : List Exchange) (is_broken : ℕ → Bool)
        (is_edge : ℕ → ℕ → Bool) → IsLawful claim →
        All (IsLawfulExchange (length claim.servers)) xs →
        IsConflictTable claim xs is_broken is_edge →
        HasSmallCover claim xs ↔ HasSmallTableCover claim is_broken is_edge }
    ensures each { (claim : ClaimData) (xs : List Exchange) (table : ConflictData)
        (is_in : ℕ → Bool) → IsLawful claim → All (IsLawfulExchange (length claim.servers)) xs →
        table.groups ≡ length claim.groups →
        IsConflictTable claim xs table.is_broken table.is_edge →
        IsCover claim xs is_in ↔ IsCoverBy table is_in }
{}

/// An exact answer on whether a course fits is one on covers, and the other way about.
pub fn fits_are_settled()
    ensures course { (claim : ClaimData) (xs : List Exchange) (fits : Bool) → IsLawful claim →
        All (IsLawfulExchange (length claim.servers)) xs →
        (IsTrue fits ↔ SomeCourse claim xs) → SettlesFit claim xs fits }
    ensures cover { (claim : ClaimData) (xs : List Exchange) (fits : Bool) → IsLawful claim →
        All (IsLawfulExchange (length claim.servers)) xs →
        (IsTrue fits ↔ HasSmallCover claim xs) → SettlesFit claim xs fits }
{
    some_course_fits_where_a_cover_is_small();
}

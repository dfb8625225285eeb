//! What holds of the definitions. A law is a function that does nothing: its contract is the law,
//! for every number.

ghost use Rattle.std.specs.Prelude.{◌≡◌, ◌⊎◌, ℕ, ◌<◌, ◌≤◌, ◌*◌, ℤ, ◌≤ℤ◌, pos, Bool, true, List, [], Ok, All, length, slice_get};
ghost use Rattle.finder.specs.Common.{CertificateData, PieceData, ClaimData, max_drift_ppb, IsLawful as IsLawfulExchange, Exchange, Sample, Course, Fits, HoldsError, IsObservedIn, IsWithin, samples_of, parts_after, parts_fault, hull_fault, verdict_of, Verdict, SomeCourse, is_inside, piece_hull, with_bound, IsPiece, Stretch, AreSamplesOf};
ghost use Rattle.claim_file.specs.Claim.{IsLawful};
ghost use Rattle.finder.specs.Carried.{GetStuck, HoldsTick, IsCarried, IsNeverEmpty, IsTick, piece_holding};
ghost use Rattle.finder.specs.Entry.{best_entries, best_hull, parts_named};
ghost use Rattle.finder.specs.Envelope.{EnvelopeData, IsCertified, IsLeast, IsNotCertified, envelope_of, least_of};
ghost use Rattle.finder.specs.Fewest.{AreLongest, IsNoWider, IsOfLongest, IsStuck, IsTooLong, stretch_over};
ghost use Rattle.finder.specs.Found.{found_of, hull_at};
ghost use Rattle.finder.specs.Leeway.{HasFalse};
ghost use Rattle.finder.specs.Neediest.{NoneNeedsMore, hull_without};
ghost use Rattle.finder.specs.Piece.{IsPieceCount, count_of, piece_count_of};
ghost use Rattle.finder.specs.Refusal.{HoldsWhole};
ghost use Rattle.finder.specs.TickParts.{best_parts};
ghost use Rattle.finder.specs.declared.least.LeastBound.{LeastBound};

use intersection::kinds::Hull;

/// The samples of exchanges keep their limits if the exchanges do, are of servers of the claim, and
/// are as many.
pub fn samples_of_exchanges_keep_limits()
    ensures of_claim { (claim : ClaimData) (xs : List Exchange) → IsLawful claim →
        All (IsLawfulExchange (length claim.servers)) xs
        → AreSamplesOf claim (samples_of xs claim) }
    ensures as_many { (claim : ClaimData) (xs : List Exchange) →
        length (samples_of xs claim) ≡ length xs }
{}

/// The last of the pieces is the first that ends with the span.
#[tactic(auto, using(crate::proofs::SpanPieces::piece_counts))]
pub fn last_piece_ends_with_the_span()
    ensures { (first last : ℤ) (step : ℕ) → first ≤ℤ last → 0 < step →
        IsPieceCount first last step (piece_count_of first last step) }
{}

/// A verdict refuses none of the best entries of a piece, and the hull that it tests is theirs.
#[tactic(auto, using(crate::proofs::Verdict::accepted_entries))]
pub fn best_entries_are_accepted()
    ensures parts { (samples : List Sample) (claim : ClaimData) (stretch : Stretch) →
        let entries = best_entries samples claim stretch in
        parts_after samples stretch claim.drift_ppb [] entries
        ≡ Ok (parts_named samples claim stretch entries) }
    ensures hull { (samples : List Sample) (claim : ClaimData) (stretch : Stretch) →
        let entries = best_entries samples claim stretch in
        parts_fault claim (parts_after samples stretch claim.drift_ppb [] entries)
        ≡ hull_fault claim.bound (best_hull samples claim stretch) }
{}

/// What each server says at a tick is what the best entries say of the piece that begins and ends
/// there, and the hull over it is that piece's.
#[tactic(auto, using(crate::proofs::PartList::of_entries))]
pub fn ticks_are_pieces_of_one_reading()
    ensures parts { (samples : List Sample) (claim : ClaimData) (tick : ℤ) →
        let stretch = stretch_over tick tick in
        best_parts samples claim tick
        ≡ parts_named samples claim stretch (best_entries samples claim stretch) }
    ensures hull { (samples : List Sample) (claim : ClaimData) (tick : ℤ) →
        piece_hull claim.groups claim.false_max (best_parts samples claim tick)
        ≡ best_hull samples claim (stretch_over tick tick) }
{}

/// In every course of events that fits, the error of the client's clock lies in the hull of a
/// piece's best entries at every moment whose reading lies in the piece, inside a bound or not.
#[tactic(auto, using(crate::proofs::Verdict::best_held))]
pub fn best_hulls_hold_the_error()
    ensures { (claim : ClaimData) (samples : List Sample) (stretch : Stretch) → IsLawful claim →
        AreSamplesOf claim samples →
        HoldsError claim samples stretch (best_hull samples claim stretch) }
{}

/// The best entries of a piece show as much as any entries of a stretch that has the whole of it:
/// if those pass the tests of a verdict, then the hull of these lies inside the bound too, or is
/// empty.
#[tactic(auto, using(crate::proofs::Narrow::shows_as_much))]
pub fn best_entries_show_as_much()
    ensures { (samples : List Sample) (claim : ClaimData) (outer inner : Stretch)
        (entries : List (ℕ × ℕ)) → claim.drift_ppb ≤ max_drift_ppb → AreSamplesOf claim samples →
        IsPiece inner.begin inner.end → HoldsWhole outer inner →
        parts_fault claim (parts_after samples outer claim.drift_ppb [] entries) ≡ None →
        (best_hull samples claim inner ≡ Hull.Empty)
        ⊎ (is_inside claim.bound (best_hull samples claim inner) ≡ true) }
{}

/// A piece inside another has no wider a hull by the best entries of each: where neither is empty,
/// its ends lie inside the other's; and if the hull of the longer piece is empty, so is its own. So
/// if the hull over one tick isn't empty, no longer piece with that tick has an empty one, and from
/// tick to tick the ends only move outwards.
#[tactic(auto, using(crate::proofs::Narrow::no_wider_within))]
pub fn pieces_within_have_no_wider_hulls()
    ensures { (samples : List Sample) (claim : ClaimData) (outer inner : Stretch) →
        claim.drift_ppb ≤ max_drift_ppb → AreSamplesOf claim samples →
        IsPiece inner.begin inner.end → HoldsWhole outer inner →
        IsNoWider (best_hull samples claim outer) (best_hull samples claim inner) }
{}

/// And so it is where the groups of a cover have no say.
#[tactic(auto, using(crate::proofs::HullWithout::no_wider_without))]
pub fn pieces_within_have_no_wider_hulls_without_groups()
    ensures { (samples : List Sample) (claim : ClaimData) (cover : ℕ → Bool)
        (outer inner : Stretch) → claim.drift_ppb ≤ max_drift_ppb → AreSamplesOf claim samples →
        IsPiece inner.begin inner.end → HoldsWhole outer inner →
        IsNoWider (hull_without samples claim cover outer)
        (hull_without samples claim cover inner) }
{}

/// If no tick of the span needs more than so many ticks of bound where the groups of a cover have
/// no say, then the clock is off by no more whenever it shows a reading of the span, in every
/// course that fits with a false server in each of these groups.
pub fn neediest_ticks_bound_the_error()
    ensures { (claim : ClaimData) (xs : List Exchange) (cover : ℕ → Bool) (most : ℕ)
        (course : Course) → IsLawful claim → All (IsLawfulExchange (length claim.servers)) xs →
        NoneNeedsMore (samples_of xs claim) claim cover most →
        Fits claim xs course → HasFalse claim cover course →
        IsObservedIn course claim.first claim.last → IsWithin course (pos most) }
{}

/// However an accepted certificate cuts the span, none of its pieces ends after the longest piece
/// of the same number.
#[tactic(auto, using(crate::proofs::Beyond::ends_no_later))]
pub fn accepted_pieces_end_no_later()
    ensures { (samples : List Sample) (claim : ClaimData) (ends : List ℤ)
        (other : CertificateData) (k : ℕ) (end : ℤ) (piece : PieceData) → IsLawful claim →
        AreSamplesOf claim samples → AreLongest samples claim claim.first ends →
        verdict_of samples claim other ≡ Verdict.Yes → slice_get ends k ≡ Some end →
        slice_get other.pieces k ≡ Some piece → pos piece.upto ≤ℤ end }
{}

/// The least bound of hulls is the least inside which all of them lie, with the first piece that
/// needs it; and no other answer is.
#[tactic(auto, using(crate::proofs::Bound::least_is_least, crate::proofs::Bound::least_is_one))]
pub fn least_bound_is_the_least()
    ensures is { (hulls : ℕ → Hull) (count : ℕ) → 0 < count →
        IsLeast hulls count (least_of hulls count) }
    ensures no_other { (hulls : ℕ → Hull) (count : ℕ) (a b : LeastBound) →
        IsLeast hulls count a → IsLeast hulls count b → a ≡ b }
{}

/// The least bound of an envelope is the least that `find` carries with the same samples, claim and
/// step: with that bound or a wider one it gives a certificate, and with a lesser one none. If no
/// bound holds, then it gives none with any.
pub fn find_carries_the_least_bound()
    ensures holds { (samples : List Sample) (claim : ClaimData) (step n k m : ℕ)
        (envelope : EnvelopeData) → envelope_of samples claim step ≡ Ok envelope →
        envelope.least ≡ LeastBound.Holds n k → n ≤ m →
        IsCertified (found_of samples (with_bound claim m) step) }
    ensures no_lesser { (samples : List Sample) (claim : ClaimData) (step n k m : ℕ)
        (envelope : EnvelopeData) → envelope_of samples claim step ≡ Ok envelope →
        envelope.least ≡ LeastBound.Holds n k → m < n →
        IsNotCertified (found_of samples (with_bound claim m) step) }
    ensures none_holds { (samples : List Sample) (claim : ClaimData) (step k m : ℕ)
        (envelope : EnvelopeData) → envelope_of samples claim step ≡ Ok envelope →
        envelope.least ≡ LeastBound.NoneHolds k →
        IsNotCertified (found_of samples (with_bound claim m) step) }
{}

/// Pieces that are cut finer need no wider bound. And if no bound holds over them, though one does
/// over the others, then the samples contradict each other in the first such piece.
pub fn finer_pieces_need_no_wider_bound()
    ensures holds { (samples : List Sample) (claim : ClaimData) (step times n j m k : ℕ)
        (coarse fine : EnvelopeData) → IsLawful claim → AreSamplesOf claim samples →
        0 < step → 0 < times → envelope_of samples claim (step * times) ≡ Ok coarse →
        coarse.least ≡ LeastBound.Holds n j → envelope_of samples claim step ≡ Ok fine →
        fine.least ≡ LeastBound.Holds m k → m ≤ n }
    ensures contradiction { (samples : List Sample) (claim : ClaimData) (step times n j k : ℕ)
        (coarse fine : EnvelopeData) → IsLawful claim → AreSamplesOf claim samples →
        0 < step → 0 < times → envelope_of samples claim (step * times) ≡ Ok coarse →
        coarse.least ≡ LeastBound.Holds n j → envelope_of samples claim step ≡ Ok fine →
        fine.least ≡ LeastBound.NoneHolds k → hull_at samples claim step k ≡ Hull.Empty }
{}

/// If some course of events fits the exchanges, their samples contradict each other at no tick: in
/// each of them the clock can be read.
pub fn courses_leave_no_hull_empty()
    ensures { (claim : ClaimData) (xs : List Exchange) → IsLawful claim →
        All (IsLawfulExchange (length claim.servers)) xs → SomeCourse claim xs →
        IsNeverEmpty (samples_of xs claim) claim }
{}

/// The longest pieces end in one of three ways, and in no two of them: they are the certificate of
/// fewest pieces, they get stuck at a tick, or as many as a certificate may have don't reach the
/// span's end. There is one such certificate, and one such tick.
pub fn longest_pieces_end_in_one_way()
    ensures one { (samples : List Sample) (claim : ClaimData) →
        IsCarried samples claim ⊎ (GetStuck samples claim ⊎ IsTooLong samples claim) }
    ensures carried_or_stuck { (samples : List Sample) (claim : ClaimData) →
        IsCarried samples claim → ¬ (GetStuck samples claim) }
    ensures carried_or_too_long { (samples : List Sample) (claim : ClaimData) →
        IsCarried samples claim → ¬ (IsTooLong samples claim) }
    ensures stuck_or_too_long { (samples : List Sample) (claim : ClaimData) →
        GetStuck samples claim → ¬ (IsTooLong samples claim) }
    ensures one_certificate { (samples : List Sample) (claim : ClaimData)
        (a b : CertificateData) → IsOfLongest samples claim a → IsOfLongest samples claim b →
        a ≡ b }
    ensures one_tick { (samples : List Sample) (claim : ClaimData) (p q r s : ℤ) (g h : Hull) →
        IsStuck samples claim p q g → IsStuck samples claim r s h → p ≡ r }
{}

/// If the span is cut at equal steps, each tick of it lies whole in the piece that holds its begin.
pub fn pieces_hold_their_ticks()
    ensures { (samples : List Sample) (claim : ClaimData) (step : ℕ) (p : ℤ) → IsLawful claim →
        0 < step → IsTick claim p →
        (piece_holding claim step p < count_of claim step)
        × HoldsTick samples claim step (piece_holding claim step p) p }
{}

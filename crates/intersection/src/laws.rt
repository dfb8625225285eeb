//! Laws of the definitions, each the contract of a function that does nothing.

ghost use Rattle.std.specs.Prelude.{◌≡◌, ℕ, ◌<◌, ◌≤◌, ℤ, ◌≤ℤ◌, ◌↔◌, ◌⊎◌, IsTrue, IsFalse, List, IsPermutation};
ghost use Rattle.std.specs.Int.{int_max, int_min};
ghost use Rattle.intersection.specs.Interval.{LeavesOut, leaves_out};
ghost use Rattle.intersection.specs.Hull.{IsAdmissible, IsHull, HullHolds, hull_of};
ghost use Rattle.era_unfold.specs.Ratio.{IsSignedFloor, IsSignedCeiling};
ghost use Rattle.intersection.specs.Fraction.{HoldsFraction, LeavesFractionOut, leaves_fraction_out, IsAdmissibleFraction, HullHoldsFraction};
ghost use Rattle.intersection.specs.declared.kinds.Interval.{Interval};
ghost use Rattle.intersection.specs.declared.kinds.Hull.{Hull};

/// The tests that the counts are made of say what the facts say: what an interval doesn't leave out
/// lies between its ends.
pub fn tests_say_the_facts()
    ensures point { (interval : Interval) (point : ℤ) → IsTrue (leaves_out interval point)
        ↔ LeavesOut interval point }
    ensures held_point { (interval : Interval) (point : ℤ) → IsFalse (leaves_out interval point)
        ↔ ((interval.lo ≤ℤ point) × (point ≤ℤ interval.hi)) }
    ensures fraction { (interval : Interval) (e : ℤ) (n : ℕ)
        → IsTrue (leaves_fraction_out interval e n) ↔ LeavesFractionOut interval e n }
    ensures held_fraction { (interval : Interval) (e : ℤ) (n : ℕ)
        → IsFalse (leaves_fraction_out interval e n) ↔ HoldsFraction interval e n }
{}

/// Every admissible point lies in the hull.
pub fn hull_holds_every_admissible_point()
    ensures { (list : List Interval) (f : ℕ) (hull : Hull) (point : ℤ) → IsHull list f hull
        → IsAdmissible list f point → HullHolds hull point }
{}

/// A list and a number of wrong intervals have one hull at most.
#[tactic(auto, using(crate::proofs::Hulls::one_answer))]
pub fn hull_is_one_answer()
    ensures { (list : List Interval) (f : ℕ) (first second : Hull) → IsHull list f first
        → IsHull list f second → first ≡ second }
{}

/// Every list has a hull: if a point is admissible, so are an end not above it and an end not below
/// it, and so the admissible ends give it.
pub fn every_list_has_a_hull()
    ensures { (list : List Interval) (f : ℕ) → IsHull list f (hull_of list f) }
{}

/// The order of the intervals doesn't matter.
pub fn hull_is_free_of_order()
    ensures { (list other : List Interval) (f : ℕ) (hull : Hull) → IsPermutation list other
        → IsHull list f hull → IsHull other f hull }
{}

/// With fewer wrong intervals there are fewer admissible points, and the hull is no larger.
#[tactic(auto, using(crate::proofs::Hulls::nested))]
pub fn hull_shrinks_as_fewer_are_wrong()
    ensures admissible { (list : List Interval) (f g : ℕ) (point : ℤ) → g ≤ f
        → IsAdmissible list g point → IsAdmissible list f point }
    ensures nested { (list : List Interval) (f g : ℕ) (wide narrow : Hull) (point : ℤ) → g ≤ f
        → IsHull list f wide → IsHull list g narrow → HullHolds narrow point
        → HullHolds wide point }
{}

/// Every fraction has a floor and a ceiling.
#[tactic(auto, using(crate::proofs::Fractions::whole_neighbors))]
pub fn fractions_have_whole_neighbors()
    ensures floor { (e : ℤ) (n : ℕ) → 0 < n → (floor : ℤ) × IsSignedFloor floor e n }
    ensures ceiling { (e : ℤ) (n : ℕ) → 0 < n → (ceiling : ℤ) × IsSignedCeiling ceiling e n }
{}

/// Whole points are fine enough: if a fraction lies in an interval with whole ends, so do its floor
/// and its ceiling. For a fraction that at most `f` intervals leave out both are admissible, and so
/// the fraction lies in the hull.
#[tactic(auto, using(crate::proofs::Fractions::fine_enough))]
pub fn whole_points_are_fine_enough()
    ensures floor { (interval : Interval) (e floor : ℤ) (n : ℕ) → 0 < n
        → HoldsFraction interval e n → IsSignedFloor floor e n → (interval.lo ≤ℤ floor)
        × (floor ≤ℤ interval.hi) }
    ensures ceiling { (interval : Interval) (e ceiling : ℤ) (n : ℕ) → 0 < n
        → HoldsFraction interval e n → IsSignedCeiling ceiling e n → (interval.lo ≤ℤ ceiling)
        × (ceiling ≤ℤ interval.hi) }
    ensures admissible_floor { (list : List Interval) (f : ℕ) (e floor : ℤ) (n : ℕ) → 0 < n
        → IsAdmissibleFraction list f e n → IsSignedFloor floor e n → IsAdmissible list f floor }
    ensures admissible_ceiling { (list : List Interval) (f : ℕ) (e ceiling : ℤ) (n : ℕ) → 0 < n
        → IsAdmissibleFraction list f e n → IsSignedCeiling ceiling e n
        → IsAdmissible list f ceiling }
    ensures hull { (list : List Interval) (f : ℕ) (hull : Hull) (e : ℤ) (n : ℕ) → 0 < n
        → IsAdmissibleFraction list f e n → IsHull list f hull → HullHoldsFraction hull e n }
{}

/// A fraction too is left out by the meet of two intervals exactly if one of them leaves it out.
pub fn meet_keeps_common_fractions()
    ensures { (a b both : Interval) (e : ℤ) (n : ℕ) → both.lo ≡ int_max a.lo b.lo
        → both.hi ≡ int_min a.hi b.hi → LeavesFractionOut both e n
        ↔ (LeavesFractionOut a e n ⊎ LeavesFractionOut b e n) }
{}

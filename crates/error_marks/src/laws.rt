//! What holds of the definitions. A law is a function that does nothing: its contract is the law,
//! for every number.

ghost use Rattle.std.specs.Prelude.{◌≡◌, ℕ, ◌≤◌, ℤ, ◌≤ℤ◌, ◌↔◌};
ghost use Rattle.sample_interval.specs.Widening.{IsRate};
ghost use Rattle.error_marks.specs.Mark.{AreCompatible};
ghost use Rattle.error_marks.specs.declared.mark.Mark.{Mark};

/// At one reading of the clock a low mark and a high mark are compatible exactly if the low one is
/// no higher, however fast the clock drifts.
#[tactic(auto, using(crate::proofs::Compatibility::at_one_place))]
pub fn marks_at_one_place_are_compared_as_they_are()
    ensures { (ppb : ℕ) (low high : Mark) → IsRate ppb → low.place ≡ high.place →
        (AreCompatible ppb low high ↔ (low.error ≤ℤ high.error)) }
{}

/// The error of a clock that doesn't drift is one number, so a low mark and a high mark are
/// compatible exactly if the low one is no higher, wherever they stand.
#[tactic(auto, using(crate::proofs::Rate::without_drift))]
pub fn without_drift_marks_are_compared_as_they_are()
    ensures { (low high : Mark) → AreCompatible 0 low high ↔ (low.error ≤ℤ high.error) }
{}

/// A clock that may drift faster keeps whatever a slower one keeps.
pub fn greater_rate_keeps_what_is_compatible()
    ensures { (slow fast : ℕ) (low high : Mark) → slow ≤ fast → IsRate fast →
        AreCompatible slow low high → AreCompatible fast low high }
{}

/// A low mark that is lower asks for less, and so does a high mark that is higher.
#[tactic(auto, using(crate::proofs::Rate::weaker_marks))]
pub fn weaker_marks_stay_compatible()
    ensures lower { (ppb : ℕ) (low high : Mark) (error : ℤ) → error ≤ℤ low.error →
        AreCompatible ppb low high → AreCompatible ppb (record low { error = error }) high }
    ensures higher { (ppb : ℕ) (low high : Mark) (error : ℤ) → high.error ≤ℤ error →
        AreCompatible ppb low high → AreCompatible ppb low (record high { error = error }) }
{}

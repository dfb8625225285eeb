//! What an exit status shows of bytes that have their sums. Each law is a function with no
//! parameters, whose contract ranges over all bytes: those of which `answer_by_sums` says that
//! there are such.

ghost use Rattle.std.specs.Prelude.{ℕ, List, Bool, Some};
ghost use Rattle.summed_inputs.specs.Common.{IsBytes, No, IsDenied, check, GiveRefutation, IsUncontestedOf, refute, IsSettledBy, settle};
ghost use Rattle.summed_inputs.specs.Answer.{ShowsOfBytes};
ghost use Rattle.summed_inputs.specs.Shown.{IsDisproven, IsProven, IsSettledShown};

/// Status 0 of `check` is the theorem, whole, by pieces and in relations alone; status 1 is a
/// verdict of no.
pub fn check_is_the_theorem()
    ensures yes { (about claim certificate capture : List ℕ) → IsBytes capture
        → ShowsOfBytes 0 (check about) claim certificate capture
        → IsProven claim certificate capture }
    ensures no { (about claim certificate capture : List ℕ)
        → ShowsOfBytes 1 (check about) claim certificate capture
        → IsDenied claim certificate capture }
{}

/// At status 0 of `refute` the refutation stands, in relations alone too; at status 1 it falls.
pub fn refute_is_a_course()
    ensures yes { (drift : Bool) (about claim refutation capture : List ℕ) → IsBytes capture
        → ShowsOfBytes 0 (refute drift about) claim refutation capture
        → IsDisproven drift claim refutation capture }
    ensures no { (drift : Bool) (about claim refutation capture : List ℕ)
        → ShowsOfBytes 1 (refute drift about) claim refutation capture
        → GiveRefutation (IsUncontestedOf drift) (Some refutation) claim capture }
{}

/// At status 0 of `settle` its certificate shows the claim, in relations alone too; at status 1 it
/// gives one of the four other answers.
pub fn settle_is_an_answer()
    ensures yes { (about claim second capture : List ℕ) → IsBytes capture
        → ShowsOfBytes 0 (settle about) claim second capture → IsSettledShown claim capture }
    ensures no { (about claim second capture : List ℕ)
        → ShowsOfBytes 1 (settle about) claim second capture → IsSettledBy No claim capture }
{}

//! What is made for `refute`.

ghost use Rattle.std.specs.Prelude.{◌≡◌, true, false, IfOk};
ghost use Rattle.audit.specs.Common.{refutation_data, data_of};
ghost use Rattle.audit.specs.Evidence.{IsLawfulEvidence, evidence_data};
ghost use Rattle.audit.specs.Question.{no_finding};
ghost use Rattle.audit.specs.Refute as spec;

use crate::evidence::Evidence;
use crate::laws::course_beyond_the_bound_contests_the_claim;
use crate::question::Question;
use crate::whole_text::{publish_text, with_about};
use audit_text::{refutation_answer, refuted_text};
use byte_stream::Sink;
use certificate::Refutation;
use checker::check_refutation;
use claim_file::Claim;
use feasibility::check_refutation_with_drift;
use line_writer::Style;
use report::{Outcome, RunFault, publish};
use std::alloc::{AllocError, Global};

/// Does a refutation, the second input, stand against the claim?
#[derive(Clone, Copy, Debug)]
pub struct Refute<'a> {
    /// Whether the clock's error may drift, as the claim grants, or never changes.
    pub drift: bool,
    /// What a person is told about the inputs, in whole lines.
    pub about: &'a [u8],
}

/// The outcome for whether a refutation stands.
fn refuted_outcome(stands: bool) -> Outcome
    ensures { result ≡ spec.refuted_outcome stands }
{
    if stands { Outcome::Yes } else { Outcome::No }
}

/// Whether a refutation stands. Memory is taken only if its error may drift.
#[tactic(auto, using(crate::proofs::RefutationShowing::refutation_settled))]
fn does_stand(
    alloc: Global,
    drift: bool,
    refutation: &Refutation,
    evidence: &Evidence,
) -> Result<bool, AllocError>
    requires { IsLawfulEvidence evidence.now }
    ensures tested { IfOk result (λ stands. stands
        ≡ spec.stands_on drift (refutation_data refutation.now) (evidence_data evidence.now)) }
    ensures shows { IfOk result (λ stands. spec.IsSettledFor drift (refutation_data refutation.now)
        (evidence_data evidence.now) (spec.refuted_outcome stands)) }
{
    if drift {
        check_refutation_with_drift(alloc, &evidence.held.exchanges, &evidence.claim, refutation)
    } else {
        Ok(check_refutation(&evidence.held.exchanges, &evidence.claim, refutation))
    }
}

/// The word of the answer.
fn refuted_word(stands: bool) -> &'static str
    ensures { result.now ≡ spec.refuted_word stands }
{
    if stands { "refuted yes" } else { "refuted no" }
}

/// The whole text.
#[tactic(auto, unfolding(crate::specs::Refute::judged_text))]
fn judged_text(
    alloc: Global,
    style: Style,
    claim: &Claim,
    refutation: &Refutation,
    stands: bool,
) -> Result<Vec<u8>, AllocError>
    ensures { IfOk result (λ text. text.items
        ≡ spec.judged_text style (data_of claim.now) (refutation_data refutation.now) stands) }
{
    match style {
        Style::Plain => refuted_text(alloc, stands),
        _ => refutation_answer(alloc, refuted_word(stands), claim, refutation),
    }
}

impl<'a> Question for Refute<'a> {
    type Second = Refutation;

    type Finding = ();

    ghost asks = { λ asked. spec.refute asked.drift asked.about.now };

    ghost finding = { λ _. no_finding };

    ghost IsFound = { λ _ _ _ _ _. Unit {0} };

    fn find(
        self,
        _alloc: Global,
        _style: Style,
        _second: &Refutation,
        _evidence: &Evidence,
    ) -> Result<(), RunFault> {
        Ok(())
    }

    #[tactic(auto, using(crate::proofs::Showing::told_fault))]
    fn tell<S: Sink>(
        self,
        alloc: Global,
        style: Style,
        second: &Refutation,
        evidence: &Evidence,
        _found: &(),
        out: &mut S,
    ) -> Result<Outcome, RunFault> {
        course_beyond_the_bound_contests_the_claim();
        match does_stand(alloc, self.drift, second, evidence) {
            Ok(stands) => {
                let text = judged_text(alloc, style, &evidence.claim, second, stands);
                let text = with_about(text, style, self.about);
                publish_text(out, text, refuted_outcome(stands))
            }
            Err(AllocError) => publish(out, &Err(RunFault::Memory)),
        }
    }
}

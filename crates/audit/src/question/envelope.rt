//! What is made for `envelope`.

ghost use Rattle.std.specs.Prelude.{◌≡◌};
ghost use Rattle.audit.specs.Envelope.{IsEnvelopeFor, bound_outcome, envelope, envelope_finding};

use crate::evidence::Evidence;
use crate::least_line::{least_if, line_on};
use crate::question::Question;
use crate::question::find::run_fault_of;
use crate::sample_list::samples_of;
use crate::whole_text::publish_text;
use byte_stream::Sink;
use envelope_text::{EnvelopeOptions, envelope_text};
use finder::laws::best_hulls_hold_the_error;
use finder::{LeastBound, LeastCarried, find_envelope_over};
use line_writer::Style;
use report::{Outcome, RunFault};
use std::alloc::{AllocError, Global};

/// The hull of each piece, and the least bound that a certificate carries, if it's asked for.
#[derive(Drop)]
pub struct EnvelopeFinding {
    /// The envelope.
    pub(crate) envelope: finder::Envelope,
    /// The least bound, none if it isn't asked for; in it none if no bound is carried.
    pub(crate) least: Option<Option<LeastCarried>>,
}

/// The outcome of a least bound.
fn outcome_of(least: LeastBound) -> Outcome
    ensures { result ≡ bound_outcome least }
{
    match least {
        LeastBound::Holds { .. } => Outcome::Yes,
        LeastBound::NoneHolds { .. } => Outcome::No,
    }
}

impl Question for EnvelopeOptions {
    type Second = ();

    type Finding = EnvelopeFinding;

    ghost asks = { envelope };

    ghost finding = { envelope_finding };

    ghost IsFound = { λ asked _ _. IsEnvelopeFor asked };

    #[tactic(auto, using(crate::proofs::Showing::memory_unfound))]
    fn find(
        self,
        alloc: Global,
        _style: Style,
        _second: &(),
        evidence: &Evidence,
    ) -> Result<EnvelopeFinding, RunFault> {
        let claim = &evidence.claim;
        match find_envelope_over(alloc, samples_of(evidence), claim, self.step.seconds) {
            Ok(envelope) => match least_if(alloc, self.least, evidence) {
                Ok(least) => Ok(EnvelopeFinding { envelope, least }),
                Err(AllocError) => Err(RunFault::Memory),
            },
            Err(fault) => Err(run_fault_of(fault)),
        }
    }

    #[tactic(auto, using(crate::proofs::EnvelopeShowing::few_enough))]
    fn tell<S: Sink>(
        self,
        alloc: Global,
        style: Style,
        _second: &(),
        evidence: &Evidence,
        found: &EnvelopeFinding,
        out: &mut S,
    ) -> Result<Outcome, RunFault> {
        best_hulls_hold_the_error();
        let envelope = &found.envelope;
        let line = line_on(self.step, evidence, found.least);
        let samples = samples_of(evidence);
        let text = envelope_text(alloc, style, self, samples, &evidence.claim, envelope, line);
        publish_text(out, text, outcome_of(envelope.least))
    }
}

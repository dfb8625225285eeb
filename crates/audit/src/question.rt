//! What may be asked of a claim and a capture.
//!
//! A [`Question`] says what its second input is, what its report is and what its outcome shows. It
//! finds what there is to be told once, and tells it in any style. Each stands in a module of its
//! own, here and in `specs/`. A [`Request`] is any of those without a second input.

ghost use Rattle.std.specs.Prelude.{◌≡◌, None, IfOk, IfErr};
ghost use Rattle.audit.specs.Common.{IsWritable, Style, Plain};
ghost use Rattle.audit.specs.Evidence.{EvidenceData, IsLawfulEvidence, evidence_data};
ghost use Rattle.audit.specs.Finding.{IsFindingOf};
ghost use Rattle.audit.specs.Question.{Finding as FindingData, QuestionData, asked_of};
ghost use Rattle.audit.specs.Report.{IsUnfound, Tells, inputs_data};
ghost use Rattle.audit.specs.Request.{IsFoundFor, finding_in, question_of};

mod at;
mod by_covers;
mod check;
mod envelope;
mod find;
mod find_refutation;
pub(crate) mod order;
mod reading;
mod readings;
mod readings_by_covers;
mod refute;
mod samples;
mod settle;

use crate::evidence::Evidence;
pub use crate::question::at::At;
pub use crate::question::by_covers::AtByCovers;
use crate::question::by_covers::HullOver;
pub use crate::question::check::Check;
use crate::question::envelope::EnvelopeFinding;
pub use crate::question::find::Find;
pub use crate::question::order::{OrderAfter, OrderWithin};
pub use crate::question::reading::AtReading;
pub use crate::question::readings::Readings;
pub use crate::question::readings_by_covers::ReadingsByCovers;
pub use crate::question::refute::Refute;
pub use crate::question::settle::Settle;
use crate::question::settle::Settlement;
use crate::second::SecondInput;
use byte_stream::Sink;
use envelope_text::EnvelopeOptions;
use finder::Found;
use line_writer::Style;
use report::{Outcome, RunFault};
use std::alloc::Global;

/// What is asked of a claim and a capture.
pub trait Question: Copy {
    /// The second input: a certificate, a refutation, readings, or `()`.
    type Second: SecondInput;

    /// What is found of the inputs before any of it is told: `()` if a text is all that is made.
    type Finding: Drop;

    /// Its report on a second input and evidence, and what its outcome shows of inputs.
    ghost asks: { Self → QuestionData };

    /// What its report is on.
    ghost finding: { Self.Finding → FindingData };

    /// This is what it finds of its second input and evidence, and enough for a text in a style.
    ghost IsFound: { Self → Style → Self.Second → EvidenceData → Self.Finding → Type 0 };

    /// Finds what is to be told in this style, and for a program.
    fn find(
        self,
        alloc: Global,
        style: Style,
        second: &Self::Second,
        evidence: &Evidence,
    ) -> Result<Self::Finding, RunFault>
        requires second { Self.Second.IsLawful second.now }
        requires evidence { IsLawfulEvidence evidence.now }
        ensures found { IfOk result (λ found.
            IsFindingOf (evidence_data evidence.now) (finding found)) }
        ensures in_style { IfOk result (IsFound self style second.now
            (evidence_data evidence.now)) }
        ensures for_a_program { IfOk result (IsFound self Plain second.now
            (evidence_data evidence.now)) }
        ensures fault { IfErr result (IsUnfound (asks self) (inputs_data
            (Self.Second.said second.now) (evidence_data evidence.now))) };

    /// Writes the text of what was found in this style, once all memory for it is taken, and
    /// finishes the sink.
    fn tell<S: Sink>(
        self,
        alloc: Global,
        style: Style,
        second: &Self::Second,
        evidence: &Evidence,
        found: &Self::Finding,
        out: &mut S,
    ) -> Result<Outcome, RunFault>
        requires second { Self.Second.IsLawful second.now }
        requires evidence { IsLawfulEvidence evidence.now }
        requires finding { IsFindingOf (evidence_data evidence.now) (finding found.now) }
        requires found { IsFound self style second.now (evidence_data evidence.now) found.now }
        requires out { IsWritable (S.state out.old) }
        ensures { Tells (asked_of (asks self) Self.Second.kind style)
            ((asks self).report style (finding found.now)
            (Self.Second.said second.now) (evidence_data evidence.now))
            (inputs_data (Self.Second.said second.now) (evidence_data evidence.now))
            (S.state out.old) (S.state out.new) result };
}

/// A question without a second input.
#[derive(Clone, Copy, Debug)]
pub enum Request {
    /// What does each exchange say about the clock?
    Samples,
    /// What does each server say about the clock at a moment?
    At(At),
    /// What does each server say about the clock while it shows a reading, and when was that?
    Reading(AtReading),
    /// How far off may the clock have been while it showed a reading, by covers, and when was that?
    ByCovers(AtByCovers),
    /// Is the claim shown, refuted, fitted by no course of events, or does it stay open? Nothing is
    /// told about the inputs.
    Settle,
    /// Is there a certificate with pieces of one length?
    Find(Find),
    /// Is there a refutation of the claim?
    FindRefutation,
    /// How far off may the clock have been, piece by piece?
    Envelope(EnvelopeOptions),
    /// Which was first, a reading of another clock or one of this clock?
    OrderAfter(OrderAfter),
    /// Which of two readings of this clock was first?
    OrderWithin(OrderWithin),
}

/// What is found for a request.
#[derive(Drop)]
pub enum RequestFinding {
    /// Nothing was looked for.
    Nothing,
    /// What settles the claim.
    Settlement(Settlement),
    /// What was found in pieces of one length.
    Search(Found),
    /// The hulls.
    Envelope(EnvelopeFinding),
    /// The hull over a reading.
    Over(HullOver),
}

impl Question for Request {
    type Second = ();

    type Finding = RequestFinding;

    ghost asks = { question_of };

    ghost finding = { finding_in };

    ghost IsFound = { λ asked style _. IsFoundFor asked style };

    fn find(
        self,
        alloc: Global,
        style: Style,
        second: &(),
        evidence: &Evidence,
    ) -> Result<RequestFinding, RunFault> {
        let unnamed = Settle { about: &[] };
        match self {
            Request::Settle => {
                let found = unnamed.find(alloc, style, second, evidence)?;
                Ok(RequestFinding::Settlement(found))
            }
            Request::Find(find) => {
                let found = find.find(alloc, style, second, evidence)?;
                Ok(RequestFinding::Search(found))
            }
            Request::Envelope(envelope) => {
                let found = envelope.find(alloc, style, second, evidence)?;
                Ok(RequestFinding::Envelope(found))
            }
            Request::ByCovers(asked) => {
                let found = asked.find(alloc, style, second, evidence)?;
                Ok(RequestFinding::Over(found))
            }
            _ => Ok(RequestFinding::Nothing),
        }
    }

    fn tell<S: Sink>(
        self,
        alloc: Global,
        style: Style,
        second: &(),
        evidence: &Evidence,
        found: &RequestFinding,
        out: &mut S,
    ) -> Result<Outcome, RunFault> {
        let unnamed = Settle { about: &[] };
        match (self, found) {
            (Request::Samples, _) => samples::tell(alloc, style, evidence, out),
            (Request::At(asked), _) => at::tell(alloc, asked, style, evidence, out),
            (Request::Reading(asked), _) => reading::tell(alloc, asked, style, evidence, out),
            (Request::FindRefutation, _) => find_refutation::tell(alloc, style, evidence, out),
            (Request::OrderAfter(asked), _) => {
                order::tell_after(alloc, asked, style, evidence, out)
            }
            (Request::OrderWithin(asked), _) => {
                order::tell_within(alloc, asked, style, evidence, out)
            }
            (Request::Settle, RequestFinding::Settlement(found)) => {
                unnamed.tell(alloc, style, second, evidence, found, out)
            }
            (Request::Find(find), RequestFinding::Search(found)) => {
                find.tell(alloc, style, second, evidence, found, out)
            }
            (Request::Envelope(envelope), RequestFinding::Envelope(found)) => {
                envelope.tell(alloc, style, second, evidence, found, out)
            }
            (Request::ByCovers(asked), RequestFinding::Over(found)) => {
                asked.tell(alloc, style, second, evidence, found, out)
            }
            _ => unreachable!(),
        }
    }
}
